//! A folder of either book.
use crate::folder::Folder;
use books::counter::CounterBook;
use books::half_book::HalfBook;

/// Says the same of a folder of either book.
macro_rules! either {
    ($tended:expr, $folder:ident => $said:expr) => {
        match $tended {
            Tended::Counter($folder) => $said,
            Tended::Half($folder) => $said,
        }
    };
}

mod calls;
pub(crate) mod reads;

/// A sheet of either book with its tickets.
pub(crate) enum Tended {
    Counter(Folder<CounterBook>),
    Half(Folder<HalfBook>),
}
