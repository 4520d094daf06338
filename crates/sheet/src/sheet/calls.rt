//! The public calls of a sheet. Seven of them change it; each promises what the call does, by the definitions of calls and
//! answers, and the law after every list of calls that led to the sheet as it is, followed by this one.
ghost use Rattle.std.specs.Prelude.{◌≡◌, true, false, length, is_ok, IfOk, OnOk};
ghost use Rattle.law.specs.declared.calls.Call.{Call};
ghost use Rattle.law.specs.Faults.{fault};
ghost use Rattle.law.specs.Law.{Called};
ghost use Rattle.law.specs.Steps.{Steps};
ghost use Rattle.law.specs.Table.{is_barren, verdict};
ghost use Rattle.sheet.specs.Answers.{kept, named, numbered, opened, pinched, returned, settled, struck};
ghost use Rattle.sheet.specs.Tickets.{Innermost};
ghost use Rattle.tables.specs.Edits.{SameRulesAndTries};
ghost use Rattle.tables.specs.Views.{model};

use super::Sheet;
use crate::ticket::{Returned, Ticket};
use books::book::Book;
use law::calls::{Refusal, Rule};
use runs::settled::Settled;
use tables::state::Event;

// That number and book stay is said in each call: it is of before and after, which no ghost field tells.
impl<B: Book> Sheet<B> {
    /// Adds a line with the declared window `lo` to `hi`, and answers its number.
    pub fn line(&mut self, lo: u32, hi: u32) -> Result<u32, Refusal>
        ensures called { Called (B.meaning self.old.book) self.old.number (model self.old.tables) (Call.Line lo hi) (model self.new.tables) (numbered result) }
        ensures step { Steps (B.meaning self.old.book) self.old.number (model self.old.tables) (Call.Line lo hi) (model self.new.tables) (numbered result) }
        ensures number { self.new.number ≡ self.old.number }
        ensures book { self.new.book ≡ self.old.book }
        ensures tries { length (model self.new.tables).saved ≡ length (model self.old.tables).saved }
    {
        self.take_line(lo, hi)
    }

    /// Adds a rule of this kind on the lines of these numbers, and answers its number. For a two-line kind `c` is 0.
    pub fn rule(&mut self, kind: u32, a: u32, b: u32, c: u32) -> Result<u32, Refusal>
        ensures called { Called (B.meaning self.old.book) self.old.number (model self.old.tables) (Call.Rule (named kind a b c)) (model self.new.tables) (numbered result) }
        ensures step { Steps (B.meaning self.old.book) self.old.number (model self.old.tables) (Call.Rule (named kind a b c)) (model self.new.tables) (numbered result) }
        ensures number { self.new.number ≡ self.old.number }
        ensures book { self.new.book ≡ self.old.book }
        ensures tries { length (model self.new.tables).saved ≡ length (model self.old.tables).saved }
    {
        self.take_rule(Rule { kind, a, b, c })
    }

    /// Cuts the line's window down to what lies in `lo` to `hi` as well.
    pub fn pinch(&mut self, line: u32, lo: u32, hi: u32) -> Result<(), Refusal>
        ensures called { Called (B.meaning self.old.book) self.old.number (model self.old.tables) (Call.Pinch line lo hi) (model self.new.tables) (pinched result) }
        ensures step { Steps (B.meaning self.old.book) self.old.number (model self.old.tables) (Call.Pinch line lo hi) (model self.new.tables) (pinched result) }
        ensures number { self.new.number ≡ self.old.number }
        ensures book { self.new.book ≡ self.old.book }
        ensures tries { length (model self.new.tables).saved ≡ length (model self.old.tables).saved }
    {
        self.take_pinch(line, lo, hi)
    }

    /// Closes windows until no rule closes them further, with an allowance of `n` narrowings.
    pub fn settle(&mut self, n: u32) -> Result<Settled, Refusal>
        ensures called { Called (B.meaning self.old.book) self.old.number (model self.old.tables) (Call.Settle n) (model self.new.tables) (settled result) }
        ensures number { self.new.number ≡ self.old.number }
        ensures book { self.new.book ≡ self.old.book }
        ensures kept { SameRulesAndTries (model self.old.tables) (model self.new.tables) }
        ensures verdict { fault result ≡ verdict (B.meaning self.old.book) self.old.number (model self.old.tables) (Call.Settle n) }
        ensures refused { is_ok result ≡ false → model self.new.tables ≡ model self.old.tables }
    {
        self.tables.admit(Event::Run)?;
        Ok(self.tables.settle(&self.book, n))
    }

    /// Begins a try, and answers its ticket.
    pub fn open(&mut self) -> Result<Ticket, Refusal>
        ensures called { Called (B.meaning self.old.book) self.old.number (model self.old.tables) Call.Open (model self.new.tables) (opened result) }
        ensures step { Steps (B.meaning self.old.book) self.old.number (model self.old.tables) Call.Open (model self.new.tables) (opened result) }
        ensures number { self.new.number ≡ self.old.number }
        ensures book { self.new.book ≡ self.old.book }
        ensures innermost { IfOk result (λ t. Innermost self.new.number (model self.new.tables) t.number t.depth) }
        ensures alive { OnOk result (is_barren (model self.new.tables).core.state ≡ false) }
    {
        let depth = self.begin()?;
        Ok(Ticket {
            number: self.number,
            depth,
        })
    }

    /// Ends the try of this ticket; what was done in it stays.
    pub fn keep(&mut self, ticket: Ticket) -> Result<(), Returned>
        ensures called { Called (B.meaning self.old.book) self.old.number (model self.old.tables) (Call.Keep ticket.number ticket.depth) (model self.new.tables) (kept result) }
        ensures step { Steps (B.meaning self.old.book) self.old.number (model self.old.tables) (Call.Keep ticket.number ticket.depth) (model self.new.tables) (kept result) }
        ensures number { self.new.number ≡ self.old.number }
        ensures book { self.new.book ≡ self.old.book }
        ensures ticket { returned ticket result }
        ensures accepts { Innermost self.old.number (model self.old.tables) ticket.number ticket.depth → is_barren (model self.old.tables).core.state ≡ false → is_ok result ≡ true }
    {
        // No `map_err`: one way hands the ticket back, the other spends it.
        match self.end_keeping(ticket.number, ticket.depth) {
            Err(why) => Err(Returned { why, ticket }),
            Ok(()) => {
                ticket.spend();
                Ok(())
            }
        }
    }

    /// Ends the try of this ticket, and brings back the state, lines, windows and rules found by its open.
    pub fn strike(&mut self, ticket: Ticket) -> Result<(), Returned>
        ensures called { Called (B.meaning self.old.book) self.old.number (model self.old.tables) (Call.Strike ticket.number ticket.depth) (model self.new.tables) (struck result) }
        ensures step { Steps (B.meaning self.old.book) self.old.number (model self.old.tables) (Call.Strike ticket.number ticket.depth) (model self.new.tables) (struck result) }
        ensures number { self.new.number ≡ self.old.number }
        ensures book { self.new.book ≡ self.old.book }
        ensures ticket { returned ticket result }
        ensures accepts { Innermost self.old.number (model self.old.tables) ticket.number ticket.depth → is_ok result ≡ true }
    {
        // No `map_err`, as in `keep`.
        match self.end_striking(ticket.number, ticket.depth) {
            Err(why) => Err(Returned { why, ticket }),
            Ok(()) => {
                ticket.spend();
                Ok(())
            }
        }
    }
}
