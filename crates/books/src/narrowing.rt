//! What a narrowing answers.
use boxes::triple::Triple;
use windows::window::Window;

/// The book has not got the kind, or an end that it reads is above its top.
#[derive(Clone, Copy, Debug, PartialEq, Eq, Hash)]
pub struct Unfit;

/// The answer of a narrowing: the smallest box that holds every satisfying choice, or `None` where no satisfying choice lies in
/// the windows.
pub type Narrowing = Result<Option<Triple<Window>>, Unfit>;
