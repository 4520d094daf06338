//! What a report tells of a refusal.
ghost use Rattle.std.specs.Prelude.{◌≡◌};
ghost use Rattle.report.specs.Refused.{of_fault, of_refusal};

use law::calls::Refusal;
use stored::fault::LoadFault;

/// A refusal as a report tells it: its number, and the index of the record that is to blame, 0 where none is.
// Two numbers: `write_report` is public and takes any two bytes; an enum would take fewer.
#[derive(Clone, Copy, PartialEq, Eq, Debug)]
pub struct RefusedAt {
    pub number: u8,
    pub at: u8,
}

impl From<LoadFault> for RefusedAt {
    ghost from_gives = { λ fault r. r ≡ of_fault fault };

    fn from(fault: LoadFault) -> RefusedAt {
        RefusedAt {
            number: u8::from(fault),
            at: fault.at(),
        }
    }
}

impl From<Refusal> for RefusedAt {
    ghost from_gives = { λ why r. r ≡ of_refusal why };

    fn from(why: Refusal) -> RefusedAt {
        RefusedAt {
            number: u8::from(why),
            at: 0,
        }
    }
}
