//! A sheet with the tickets of its open tries.
ghost use Rattle.std.specs.Prelude.{vec_capacity};
ghost use Rattle.desk.specs.Hands.{InStep};
ghost use Rattle.tables.specs.Views.{model};

use crate::held::Held;
use books::book::Book;
use sheet::sheet::Sheet;

pub(crate) mod calls;
pub(crate) mod set_up;
pub(crate) mod tickets;

/// A sheet, and the tickets of its open tries, the outermost first. They are in step.
pub(crate) struct Folder<B: Book> {
    pub(crate) sheet: Sheet<B>,
    pub(crate) hand: Vec<Held>,
    ghost in_step: { InStep (B.meaning sheet.book) sheet.number (model sheet.tables) hand.items (vec_capacity hand) },
}
