//! Settling the windows of lines.
ghost use Rattle.std.specs.Prelude.{map};
ghost use Rattle.runs.specs.Rounds.{Finished, Ready};
ghost use Rattle.windows.specs.Windows.{span};

use crate::lines::Lines;
use crate::rules::Rules;
use crate::run::run;
use crate::settled::Settled;
use books::book::Book;

/// Closes the windows of the lines by the rules, with an allowance of `n` narrowings. Where the run ends barren, the windows
/// are brought back as they were.
pub fn settle<B: Book>(book: &B, rules: &Rules, lines: &mut Lines, n: u32) -> Settled
    ensures { Ready (B.meaning book.now) rules.now.items.items (map span lines.old.windows.items)
        → Finished (B.meaning book.now) rules.now.items.items n (map span lines.old.windows.items) (map span lines.new.windows.items) result }
{
    let before = lines.snapshot();
    let settled = run(book, rules, lines, n);
    if let Settled::Barren(_) = settled {
        lines.bring_back(&before);
    }
    settled
}
