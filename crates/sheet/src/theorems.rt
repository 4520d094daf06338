//! What holds of a sheet's calls at the meaning of any book.
ghost use Rattle.std.specs.Prelude.{◌≡◌};
ghost use Rattle.law.specs.Law.{Lawful};
ghost use Rattle.law.specs.Runs.{UniqueEnding};
ghost use Rattle.law.specs.Steps.{Deterministic};

use books::book::Book;

/// How many outcomes a call has.
const OUTCOMES: u32 = 1;

/// Over this book a run of settle has no two endings, and a call no two outcomes: what the calls of a sheet promise is all there
/// is; and the law holds of every sheet that a list of calls leads to. Answers how many outcomes a call has.
pub fn one_outcome<B: Book>(book: &B) -> u32
    ensures outcomes { result ≡ 1 }
    ensures ending { UniqueEnding (B.meaning book.now) }
    ensures outcome { Deterministic (B.meaning book.now) }
    ensures law { Lawful (B.meaning book.now) }
{
    let _ = book;
    OUTCOMES
}
