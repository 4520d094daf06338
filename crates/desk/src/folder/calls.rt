//! The calls on a sheet that leave its tickets as they are.
ghost use Rattle.std.specs.Prelude.{◌≡◌};
ghost use Rattle.law.specs.Law.{Called};
ghost use Rattle.desk.specs.Hands.{call_of};
ghost use Rattle.tables.specs.Views.{model};

use super::Folder;
use books::book::Book;
use law::calls::Answer;

/// A call that neither begins nor ends a try.
// No `law::calls::Call`: that has the calls with tickets too, which go through the hand.
#[derive(Clone, Copy, Debug, PartialEq, Eq, Hash)]
pub(crate) enum Plain {
    Line { lo: u32, hi: u32 },
    Rule { kind: u32, a: u32, b: u32, c: u32 },
    Pinch { line: u32, lo: u32, hi: u32 },
    Settle(u32),
}

impl<B: Book> Folder<B> {
    /// Makes the call. The tickets stay.
    pub(crate) fn plain(&mut self, call: Plain) -> Answer
        ensures called { Called (B.meaning self.old.sheet.book) self.old.sheet.number (model self.old.sheet.tables) (call_of call) (model self.new.sheet.tables) result }
        ensures hand { self.new.hand.items ≡ self.old.hand.items }
        ensures number { self.new.sheet.number ≡ self.old.sheet.number }
        ensures book { self.new.sheet.book ≡ self.old.sheet.book }
    {
        let sheet = &mut self.sheet;
        match call {
            Plain::Line { lo, hi } => sheet
                .line(lo, hi)
                .map_or_else(Answer::Refused, Answer::Numbered),
            Plain::Rule { kind, a, b, c } => sheet
                .rule(kind, a, b, c)
                .map_or_else(Answer::Refused, Answer::Numbered),
            Plain::Pinch { line, lo, hi } => sheet
                .pinch(line, lo, hi)
                .err()
                .map_or(Answer::Pinched, Answer::Refused),
            Plain::Settle(n) => sheet.settle(n).map_or_else(Answer::Refused, Answer::from),
        }
    }
}
