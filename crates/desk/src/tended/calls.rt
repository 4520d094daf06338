//! The calls on a sheet of either book.
ghost use Rattle.std.specs.Prelude.{◌≡◌, ◌<◌, ◌≢◌, length};
ghost use Rattle.desk.specs.Hands.{Found, call_of};
ghost use Rattle.desk.specs.Tended.{hand_of, meaning_of, model_of, number_of};
ghost use Rattle.law.specs.Law.{Called};

use super::Tended;
use crate::folder::calls::Plain;
use crate::folder::tickets::Ending;
use law::calls::{Answer, Refusal};

impl Tended {
    /// Makes a call that neither begins nor ends a try.
    pub(crate) fn plain(&mut self, call: Plain) -> Answer
        ensures called { Called (meaning_of self.old) (number_of self.old) (model_of self.old) (call_of call) (model_of self.new) result }
        ensures hand { hand_of self.new ≡ hand_of self.old }
        ensures number { number_of self.new ≡ number_of self.old }
    {
        either!(self, folder => folder.plain(call))
    }

    /// Begins a try, and takes its ticket in hand at this place.
    pub(crate) fn open(&mut self, place: u32) -> Result<(), Refusal>
        ensures number { number_of self.new ≡ number_of self.old }
    {
        either!(self, folder => folder.open(place))
    }

    /// Where the ticket of this place is in hand.
    pub(crate) fn find(&self, place: u32) -> Option<usize>
        ensures { Found (hand_of self.now) place result }
    {
        either!(self, folder => folder.find(place))
    }

    /// Hands one of its own tickets to the sheet.
    pub(crate) fn hand_in(&mut self, at: usize, ending: Ending) -> Result<(), Refusal>
        requires { at < length (hand_of self.old) }
        ensures number { number_of self.new ≡ number_of self.old }
    {
        either!(self, folder => folder.hand_in(at, ending))
    }

    /// Hands a ticket of another sheet to this one.
    pub(crate) fn hand_over(&mut self, source: &mut Tended, at: usize, ending: Ending) -> Refusal
        requires within { at < length (hand_of source.old) }
        requires apart { number_of self.old ≢ number_of source.old }
        ensures number { number_of self.new ≡ number_of self.old }
        ensures source { number_of source.new ≡ number_of source.old }
    {
        either!(self, to => either!(source, from => to.turn_away(from, at, ending)))
    }

    /// Strikes the open tries, innermost first, and puts the sheet away.
    pub(crate) fn close(self) {
        either!(self, folder => folder.close());
    }
}
