//! Theorems about the definitions, each on the contract of a small public call.
ghost use Rattle.std.specs.Prelude.{◌≡◌, ℕ};
ghost use Rattle.books.specs.Narrowings.{OneAnswer};
ghost use Rattle.books.specs.Worked.{TravelsShown, WorkedCases};

use crate::book::Book;
use half::laws::half_over;

/// How many answers there can be.
const ANSWERS: u32 = 1;

/// A book has one answer to each kind and each three windows; answers how many there can be.
pub fn one_answer<B: Book>(book: &B) -> u32
    ensures count { result ≡ 1 }
    ensures one { (kind : ℕ) → OneAnswer (B.meaning book.now) kind }
{
    let _ = book;
    ANSWERS
}

/// The worked cases hold of the definitions, those of the half drive by the promise of its answer "over"; answers how many there
/// are.
pub fn worked_cases() -> u32
    ensures count { result ≡ 13 }
    ensures cases { WorkedCases }
    ensures shown { TravelsShown }
{
    let _ = half_over();
    13
}
