//! Tries begun and ended at the desk.
ghost use Rattle.std.specs.Prelude.{◌≡◌, ◌+◌, IfOk, OnErr};
ghost use Rattle.commands.specs.declared.reply.Reply.{Reply as AnyReply};
ghost use Rattle.desk.specs.Endings.{said_of};

use super::Desk;
use crate::folder::tickets::Ending;
use crate::no_effect::NoEffect;
use crate::tended::Tended;
use commands::reply::{Fault, Reply};

impl From<Ending> for Reply {
    ghost from_gives = { λ ending reply. reply ≡ said_of ending };

    fn from(ending: Ending) -> Reply {
        match ending {
            Ending::Keep => Reply::Kept,
            Ending::Strike => Reply::Struck,
        }
    }
}

/// Hands the ticket of this place, which is in hand for one of the sheets that are not present, to the present one.
fn hand_from_others(
    others: &mut [Tended],
    present: &mut Tended,
    place: u32,
    ending: Ending,
) -> NoEffect {
    for other in others {
        if other.number() != present.number() {
            if let Some(at) = other.find(place) {
                return present.hand_over(other, at, ending).into();
            }
        }
    }
    Fault::NoTicket(place).into()
}

/// Hands a ticket to the present sheet.
fn hand_to(
    others: &mut [Tended],
    present: &mut Tended,
    place: u32,
    ending: Ending,
) -> Result<Reply, NoEffect>
    ensures { IfOk result (λ reply. reply ≡ said_of ending) }
{
    let Some(at) = present.find(place) else {
        return Err(hand_from_others(others, present, place, ending));
    };
    present.hand_in(at, ending)?;
    Ok(ending.into())
}

impl Desk {
    /// Begins a try on the present sheet.
    pub(super) fn open(&mut self) -> Result<Reply, NoEffect>
        ensures ok { IfOk result (λ reply. (reply ≡ AnyReply.Ticket self.new.answered) × (self.new.answered ≡ self.old.answered + 1)) }
        ensures err { OnErr result (self.new.answered ≡ self.old.answered) }
    {
        let present = self.folders.last_mut().ok_or(Fault::NonePresent)?;
        let place = self.answered.checked_add(1).ok_or(Fault::TooManyTickets)?;
        present.open(place)?;
        self.answered = place;
        Ok(Reply::Ticket(place))
    }

    /// Hands the ticket of this place to the present sheet.
    pub(super) fn end(&mut self, place: u32, ending: Ending) -> Result<Reply, NoEffect>
        ensures said { IfOk result (λ reply. reply ≡ said_of ending) }
        ensures answered { self.new.answered ≡ self.old.answered }
    {
        let folders = self.folders.as_mut_slice();
        let (present, others) = folders.split_last_mut().ok_or(Fault::NonePresent)?;
        hand_to(others, present, place, ending)
    }
}
