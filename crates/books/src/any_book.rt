//! A book of either drive.
use crate::half_book::HalfBook;

/// The counter book, or a half book.
#[derive(Clone, Copy, Debug, PartialEq, Eq, Hash)]
pub enum AnyBook {
    Counter,
    Half(HalfBook),
}
