//! The table of refusals as data: each case with its refusal, in the order in which they are checked.
ghost use Rattle.std.specs.Prelude.{◌≡◌};
ghost use Rattle.law.specs.Table.{first};
ghost use Rattle.law.specs.Faults.{fault};

use crate::calls::Refusal;

/// A case of the table: why a call is turned away, and whether the case applies. An `Option` would be no plainer: the table is
/// data, in which a case has its refusal whether it applies or not.
#[derive(Clone, Copy, Debug, PartialEq, Eq, Hash)]
pub struct Check {
    pub why: Refusal,
    pub applies: bool,
}

/// Turns a call away by the first case that applies.
pub fn first_fault(checks: &[Check]) -> Result<(), Refusal>
    ensures { fault result ≡ first checks.now }
{
    for check in checks {
        if check.applies {
            return Err(check.why);
        }
    }
    Ok(())
}
