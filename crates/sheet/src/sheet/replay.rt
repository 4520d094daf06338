//! A list of calls played from set-up to the end.
ghost use Rattle.std.specs.Prelude.{◌≡◌, IfOk};
ghost use Rattle.law.specs.Law.{Called, Played};
ghost use Rattle.sheet.specs.Answers.{given};
ghost use Rattle.tables.specs.Views.{model};

use super::Sheet;
use books::book::Book;
use law::calls::{Answer, Call, Refusal};
use std::alloc::{AllocError, Global};

/// A sheet that calls were played on, and what each answered.
#[derive(Drop)]
pub struct Replay<B: Book> {
    sheet: Sheet<B>,
    answers: Vec<Answer>,
}

impl<B: Book> Replay<B> {
    /// The sheet as the calls left it, to be read.
    pub fn sheet(&self) -> &Sheet<B>
        ensures { result.now ≡ self.now.sheet }
    {
        &self.sheet
    }

    /// What each call answered, in their order.
    pub fn answers(&self) -> &[Answer]
        ensures { result.now ≡ self.now.answers.items }
    {
        self.answers.as_slice()
    }
}

impl<B: Book> Sheet<B> {
    /// Makes one call, whichever it is, and answers what it gives.
    fn make(&mut self, call: Call) -> Result<Answer, Refusal>
        ensures called { Called (B.meaning self.old.book) self.old.number (model self.old.tables) call (model self.new.tables) (given result) }
        ensures number { self.new.number ≡ self.old.number }
        ensures book { self.new.book ≡ self.old.book }
    {
        let answer = match call {
            Call::Line { lo, hi } => Answer::Numbered(self.line(lo, hi)?),
            Call::Rule(rule) => Answer::Numbered(self.rule(rule.kind, rule.a, rule.b, rule.c)?),
            Call::Pinch { line, lo, hi } => {
                self.pinch(line, lo, hi)?;
                Answer::Pinched
            }
            Call::Settle(n) => Answer::from(self.settle(n)?),
            Call::Open => Answer::Opened {
                number: self.number,
                depth: self.begin()?,
            },
            Call::Keep { number, depth } => {
                self.end_keeping(number, depth)?;
                Answer::Kept
            }
            Call::Strike { number, depth } => {
                self.end_striking(number, depth)?;
                Answer::Struck
            }
        };
        Ok(answer)
    }

    /// The same; a refusal is an answer too.
    fn play(&mut self, call: Call) -> Answer
        ensures called { Called (B.meaning self.old.book) self.old.number (model self.old.tables) call (model self.new.tables) result }
        ensures number { self.new.number ≡ self.old.number }
        ensures book { self.new.book ≡ self.old.book }
    {
        self.make(call).unwrap_or_else(Answer::Refused)
    }
}

impl<B: Book + Drop> Replay<B> {
    /// Plays the calls, in their order, on a sheet set up empty. A keep or a strike is handed in as the number and the depth of
    /// its ticket; no ticket is made, so none is left unspent, and the sheet can only be read afterwards.
    pub fn of(heap: Global, number: u32, book: B, calls: &[Call]) -> Result<Replay<B>, AllocError>
        ensures played { IfOk result (λ p. Played (B.meaning book) number calls.now p.answers.items (model p.sheet.tables)) }
        ensures number { IfOk result (λ p. p.sheet.number ≡ number) }
        ensures book { IfOk result (λ p. p.sheet.book ≡ book) }
    {
        let mut sheet = Sheet::new(heap, number, book)?;
        let mut answers = Vec::new(heap);
        for call in calls {
            let answer = sheet.play(*call);
            answers.push(answer)?;
        }
        Ok(Replay { sheet, answers })
    }
}
