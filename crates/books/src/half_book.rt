//! The book of the half drive.
ghost use Rattle.std.specs.Prelude.{◌≡◌, ◌<◌, MatchResult, refl};
ghost use Rattle.half.specs.Roundings.{mode_number};
ghost use Rattle.books.specs.HalfBooks.{fault_number, half_lines, half_meaning};
ghost use Rattle.books.specs.Kinds.{counted, known, two_to_five};
ghost use Rattle.books.specs.declared.half_book.BookFault.TheVariants.{NoMode};
ghost use Rattle.std.proofs.Common.{rules};

use crate::book::Book;
use crate::close::Drive;
use crate::kind::{Kind, TWO_TO_FIVE};
use crate::narrowing::Narrowing;
use boxes::triple::Triple;
use half::mode::{Mode, UnknownMode};
use half::product::HalfProduct;
use half::sum::HalfSum;
use windows::window::Window;

/// Why there is no book.
#[derive(Clone, Copy, Debug, PartialEq, Eq, Hash)]
pub enum BookFault {
    /// No mode has the number.
    NoMode,
}

impl From<UnknownMode> for BookFault {
    ghost from_gives = { λ _ fault. fault ≡ NoMode };

    fn from(_mode: UnknownMode) -> BookFault {
        BookFault::NoMode
    }
}

impl From<BookFault> for u8 {
    ghost from_gives = { λ fault number. number ≡ fault_number fault };

    /// The refusal's number.
    fn from(fault: BookFault) -> u8 {
        match fault {
            BookFault::NoMode => 11,
        }
    }
}

/// The rules of the half drive: binary16 codes, rounded in the book's mode.
#[derive(Clone, Copy, Debug, PartialEq, Eq, Hash)]
pub struct HalfBook {
    mode: Mode,
}

impl Book for HalfBook {
    const TOP: u32 = 31743;

    const DRIVE: u8 = 0;

    const KINDS: [bool; 8] = TWO_TO_FIVE;

    ghost TOP = { 31743 };

    ghost DRIVE = { 0 };

    ghost KINDS = { two_to_five };

    ghost arity = { half_lines };

    ghost mode = { λ book. mode_number book.mode };

    ghost meaning = { λ book. half_meaning book.mode };

    ghost counts = { counted two_to_five };

    ghost small = { Prim.search rules };

    ghost top = { λ _. refl };

    ghost same = { λ _ _. refl };

    ghost known = { known };

    ghost within = { Prim.search rules };

    fn lines(kind: u32) -> u32 {
        Kind::lines_among(&Self::KINDS, kind)
    }

    fn mode_number(&self) -> u8 {
        u8::from(self.mode)
    }

    /// Travel by the half product and sum by the half sum, both rounded in the book's mode, later by the greater code and not
    /// after by the order of codes, each up to 31743.
    fn narrow(&self, kind: u32, windows: Triple<Window>) -> Narrowing {
        let drive = Drive {
            product: HalfProduct::new(self.mode),
            sum: HalfSum::new(self.mode),
            top: Self::TOP,
            kinds: Self::KINDS,
        };
        drive.narrow(kind, windows)
    }
}

impl HalfBook {
    /// The book of the mode with this number; a number above 2 is refused.
    pub fn new(mode: u8) -> Result<HalfBook, BookFault>
        ensures { MatchResult result (λ book. mode_number book.mode ≡ mode) (λ fault. (2 < mode) × (fault_number fault ≡ 11)) }
    {
        Ok(HalfBook {
            mode: Mode::try_from(mode)?,
        })
    }
}
