//! An interval of codes, as the operations see it.
ghost use Rattle.std.specs.Prelude.{◌<◌, ◌≤◌};

mod calls;

/// The codes from `lo` to `hi`, both counted in; never empty, and below 2,147,483,647, so that a search can double its steps.
// Beside `Window`, a type of its own: no window has this bound, and round a window each end would be read through two types.
#[derive(Clone, Copy, Debug, PartialEq, Eq, Hash)]
pub struct Interval {
    pub(crate) lo: u32,
    pub(crate) hi: u32,
    ghost ordered: { lo ≤ hi },
    ghost small: { hi < 2147483647 },
}
