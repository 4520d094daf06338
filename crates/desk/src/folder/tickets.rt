//! Tickets: begun tries, and tickets handed to a sheet.
ghost use Rattle.std.specs.Prelude.{◌≡◌, ◌<◌, ◌≤◌, ◌≢◌, vec_len, vec_capacity};
ghost use Rattle.desk.specs.Endings.{call_by, ended};
ghost use Rattle.law.specs.Law.{Called};
ghost use Rattle.law.specs.Steps.{Steps};
ghost use Rattle.sheet.specs.Answers.{returned};
ghost use Rattle.std.specs.List.{insert};
ghost use Rattle.tables.specs.Views.{model};

use super::Folder;
use crate::held::Held;
use books::book::Book;
use law::calls::Refusal;
use sheet::sheet::Sheet;
use sheet::ticket::{Returned, Ticket};

/// How a try ends.
// No closure: it would have to take a sheet of either book.
#[derive(Clone, Copy, Debug, PartialEq, Eq, Hash)]
pub(crate) enum Ending {
    Keep,
    Strike,
}

/// Hands a ticket to a sheet.
fn give<B: Book>(sheet: &mut Sheet<B>, ticket: Ticket, ending: Ending) -> Result<(), Returned>
    ensures called { Called (B.meaning sheet.old.book) sheet.old.number (model sheet.old.tables) (call_by ending ticket.number ticket.depth) (model sheet.new.tables) (ended ending result) }
    ensures step { Steps (B.meaning sheet.old.book) sheet.old.number (model sheet.old.tables) (call_by ending ticket.number ticket.depth) (model sheet.new.tables) (ended ending result) }
    ensures number { sheet.new.number ≡ sheet.old.number }
    ensures book { sheet.new.book ≡ sheet.old.book }
    ensures ticket { returned ticket result }
{
    match ending {
        Ending::Keep => sheet.keep(ticket),
        Ending::Strike => sheet.strike(ticket),
    }
}

/// Puts a ticket back at its place in the hand, where there is room.
fn put_back(hand: &mut Vec<Held>, at: usize, held: Held)
    requires place { at ≤ vec_len hand.old }
    requires room { vec_len hand.old < vec_capacity hand.old }
    ensures items { hand.new.items ≡ insert hand.old.items at held }
    ensures room { vec_capacity hand.old ≤ vec_capacity hand.new }
{
    hand.insert(at, held).unwrap();
}

impl<B: Book> Folder<B> {
    /// Begins a try, and takes its ticket in hand at this place.
    pub(crate) fn open(&mut self, place: u32) -> Result<(), Refusal>
        ensures number { self.new.sheet.number ≡ self.old.sheet.number }
        ensures book { self.new.sheet.book ≡ self.old.sheet.book }
    {
        let ticket = self.sheet.open()?;
        self.hand.push_reserved(Held { place, ticket });
        Ok(())
    }

    /// Hands one of the folder's own tickets to its sheet. It comes back with a refusal, and is put back.
    pub(crate) fn hand_in(&mut self, at: usize, ending: Ending) -> Result<(), Refusal>
        requires { at < vec_len self.old.hand }
        ensures number { self.new.sheet.number ≡ self.old.sheet.number }
        ensures book { self.new.sheet.book ≡ self.old.sheet.book }
    {
        let Held { place, ticket } = self.hand.remove(at);
        // No `map_err`: of the hand, which its closure would change, a proof would know nothing afterwards.
        match give(&mut self.sheet, ticket, ending) {
            Ok(()) => Ok(()),
            Err(Returned { why, ticket }) => {
                put_back(&mut self.hand, at, Held { place, ticket });
                Err(why)
            }
        }
    }

    /// Hands a ticket of another folder to this one's sheet, which turns it away. It is put back.
    pub(crate) fn turn_away<S: Book>(
        &mut self,
        source: &mut Folder<S>,
        at: usize,
        ending: Ending,
    ) -> Refusal
        requires within { at < vec_len source.old.hand }
        requires apart { self.old.sheet.number ≢ source.old.sheet.number }
        ensures number { self.new.sheet.number ≡ self.old.sheet.number }
        ensures sheet { source.new.sheet ≡ source.old.sheet }
    {
        let Held { place, ticket } = source.hand.remove(at);
        let Returned { why, ticket } = give(&mut self.sheet, ticket, ending).unwrap_err();
        put_back(&mut source.hand, at, Held { place, ticket });
        why
    }
}

impl<B: Book + Drop> Folder<B> {
    /// Strikes the open tries, innermost first, and takes the folder apart.
    // No `for`: it wants items that may be dropped, and a ticket may not.
    pub(crate) fn close(self) {
        let Folder {
            mut sheet,
            mut hand,
        } = self;
        while let Some(Held { place: _, ticket }) = hand.pop() {
            sheet.strike(ticket).unwrap();
        }
        hand.destroy_empty();
    }
}
