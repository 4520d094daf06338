//! The book of the counter drive.
ghost use Rattle.books.specs.CounterBooks.{counter_lines, counter_meaning};
ghost use Rattle.books.specs.Kinds.{counted, known, two_to_five};
ghost use Rattle.std.proofs.Common.{rules};
ghost use Rattle.std.specs.Prelude.{refl};

use crate::book::Book;
use crate::close::Drive;
use crate::kind::{Kind, TWO_TO_FIVE};
use crate::narrowing::Narrowing;
use boxes::triple::Triple;
use codes::counter::{CounterProduct, CounterSum};
use windows::window::Window;

/// The rules of the counter drive: whole counts, mode 0.
#[derive(Clone, Copy, Debug, PartialEq, Eq, Hash)]
pub struct CounterBook;

impl Book for CounterBook {
    const TOP: u32 = 65535;

    const DRIVE: u8 = 1;

    const KINDS: [bool; 8] = TWO_TO_FIVE;

    ghost TOP = { 65535 };

    ghost DRIVE = { 1 };

    ghost KINDS = { two_to_five };

    ghost arity = { counter_lines };

    ghost mode = { λ _. 0 };

    ghost meaning = { λ _. counter_meaning };

    ghost counts = { counted two_to_five };

    ghost small = { Prim.search rules };

    ghost top = { λ _. refl };

    ghost same = { λ _ _. refl };

    ghost known = { known };

    ghost within = { Prim.search rules };

    fn lines(kind: u32) -> u32 {
        Kind::lines_among(&Self::KINDS, kind)
    }

    fn mode_number(&self) -> u8 {
        0
    }

    /// Travel by the counter product, sum by the counter sum, later by the greater code and not after by the order of codes,
    /// each up to 65535.
    fn narrow(&self, kind: u32, windows: Triple<Window>) -> Narrowing {
        let drive = Drive {
            product: CounterProduct,
            sum: CounterSum,
            top: Self::TOP,
            kinds: Self::KINDS,
        };
        drive.narrow(kind, windows)
    }
}
