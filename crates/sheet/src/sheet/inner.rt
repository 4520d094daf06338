//! What the calls do, each with the law on it: `calls` makes them public. Lines, rules and pinches are taken here and not in their
//! calls, so that a wrong call meets this contract, and not the proof of the work; tries are begun and ended by numbers, without tickets.
ghost use Rattle.std.specs.Prelude.{◌≡◌, true, false, length, is_ok, IfOk, OnOk};
ghost use Rattle.law.specs.declared.calls.Answer.{Answer};
ghost use Rattle.law.specs.declared.calls.Call.{Call};
ghost use Rattle.law.specs.Faults.{fault};
ghost use Rattle.law.specs.Law.{Called};
ghost use Rattle.law.specs.Steps.{Steps};
ghost use Rattle.law.specs.Table.{is_barren, verdict};
ghost use Rattle.sheet.specs.Answers.{begun, ended, numbered, pinched};
ghost use Rattle.sheet.specs.Tickets.{Innermost};
ghost use Rattle.tables.specs.Views.{model};

use super::Sheet;
use books::book::Book;
use law::calls::{Refusal, Rule};
use runs::place::{cut_down, window_at};
use tables::state::Event;
use windows::window::Window;

impl<B: Book> Sheet<B> {
    /// Adds a line.
    pub(super) fn take_line(&mut self, lo: u32, hi: u32) -> Result<u32, Refusal>
        ensures called { Called (B.meaning self.old.book) self.old.number (model self.old.tables) (Call.Line lo hi) (model self.new.tables) (numbered result) }
        ensures step { Steps (B.meaning self.old.book) self.old.number (model self.old.tables) (Call.Line lo hi) (model self.new.tables) (numbered result) }
        ensures number { self.new.number ≡ self.old.number }
        ensures book { self.new.book ≡ self.old.book }
        ensures tries { length (model self.new.tables).saved ≡ length (model self.old.tables).saved }
    {
        let next = self.tables.admit(Event::Change)?;
        self.tables.check_line(B::TOP, lo, hi)?;
        self.tables.add_line(Window::spanning(lo, hi), next);
        Ok(self.tables.line_count())
    }

    /// Adds a rule.
    pub(super) fn take_rule(&mut self, rule: Rule) -> Result<u32, Refusal>
        ensures called { Called (B.meaning self.old.book) self.old.number (model self.old.tables) (Call.Rule rule) (model self.new.tables) (numbered result) }
        ensures step { Steps (B.meaning self.old.book) self.old.number (model self.old.tables) (Call.Rule rule) (model self.new.tables) (numbered result) }
        ensures number { self.new.number ≡ self.old.number }
        ensures book { self.new.book ≡ self.old.book }
        ensures tries { length (model self.new.tables).saved ≡ length (model self.old.tables).saved }
    {
        let next = self.tables.admit(Event::Change)?;
        self.tables.check_rule::<B>(rule)?;
        self.tables.add_rule(rule, next);
        Ok(self.tables.rule_count())
    }

    /// Cuts a line's window down.
    pub(super) fn take_pinch(&mut self, line: u32, lo: u32, hi: u32) -> Result<(), Refusal>
        ensures called { Called (B.meaning self.old.book) self.old.number (model self.old.tables) (Call.Pinch line lo hi) (model self.new.tables) (pinched result) }
        ensures step { Steps (B.meaning self.old.book) self.old.number (model self.old.tables) (Call.Pinch line lo hi) (model self.new.tables) (pinched result) }
        ensures number { self.new.number ≡ self.old.number }
        ensures book { self.new.book ≡ self.old.book }
        ensures tries { length (model self.new.tables).saved ≡ length (model self.old.tables).saved }
    {
        let next = self.tables.admit(Event::Change)?;
        self.tables.check_pinch(B::TOP, line, lo, hi)?;
        let present = window_at(self.tables.windows(), line);
        self.tables
            .set_window(line, cut_down(present, lo, hi), next);
        Ok(())
    }

    /// Begins a try, and answers its depth.
    pub(super) fn begin(&mut self) -> Result<u32, Refusal>
        ensures called { Called (B.meaning self.old.book) self.old.number (model self.old.tables) Call.Open (model self.new.tables) (begun self.old.number result) }
        ensures step { Steps (B.meaning self.old.book) self.old.number (model self.old.tables) Call.Open (model self.new.tables) (begun self.old.number result) }
        ensures number { self.new.number ≡ self.old.number }
        ensures book { self.new.book ≡ self.old.book }
        ensures innermost { IfOk result (λ depth. Innermost self.old.number (model self.new.tables) self.old.number depth) }
        ensures alive { OnOk result (is_barren (model self.new.tables).core.state ≡ false) }
    {
        self.tables.admit(Event::Hold)?;
        self.tables.check_open()?;
        self.tables.begin_try();
        Ok(self.tables.try_count())
    }

    /// Whether a keep is turned away.
    fn check_keep(&self, number: u32, depth: u32) -> Result<(), Refusal>
        ensures { fault result ≡ verdict (B.meaning self.now.book) self.now.number (model self.now.tables) (Call.Keep number depth) }
    {
        self.tables.admit(Event::Hold)?;
        self.tables.check_ticket(self.number, number, depth)
    }

    /// Ends the try of this depth, by a ticket of the sheet of this number; what was done in it stays.
    pub(super) fn end_keeping(&mut self, number: u32, depth: u32) -> Result<(), Refusal>
        ensures called { Called (B.meaning self.old.book) self.old.number (model self.old.tables) (Call.Keep number depth) (model self.new.tables) (ended Answer.Kept result) }
        ensures step { Steps (B.meaning self.old.book) self.old.number (model self.old.tables) (Call.Keep number depth) (model self.new.tables) (ended Answer.Kept result) }
        ensures number { self.new.number ≡ self.old.number }
        ensures book { self.new.book ≡ self.old.book }
        ensures accepts { Innermost self.old.number (model self.old.tables) number depth → is_barren (model self.old.tables).core.state ≡ false → is_ok result ≡ true }
    {
        self.check_keep(number, depth)?;
        self.tables.keep_try();
        Ok(())
    }

    /// The same, and what its open found is brought back.
    pub(super) fn end_striking(&mut self, number: u32, depth: u32) -> Result<(), Refusal>
        ensures called { Called (B.meaning self.old.book) self.old.number (model self.old.tables) (Call.Strike number depth) (model self.new.tables) (ended Answer.Struck result) }
        ensures step { Steps (B.meaning self.old.book) self.old.number (model self.old.tables) (Call.Strike number depth) (model self.new.tables) (ended Answer.Struck result) }
        ensures number { self.new.number ≡ self.old.number }
        ensures book { self.new.book ≡ self.old.book }
        ensures accepts { Innermost self.old.number (model self.old.tables) number depth → is_ok result ≡ true }
    {
        self.tables.check_ticket(self.number, number, depth)?;
        self.tables.strike_try();
        Ok(())
    }
}
