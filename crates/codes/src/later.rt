//! The later of two codes, one text for every top code.
ghost use Rattle.std.specs.Prelude.{◌<◌, min, ◌≡◌};
ghost use Rattle.codes.specs.Operations.{later};
ghost use Rattle.std.proofs.Common.{rules, arith};

use crate::operation::Operation;

/// The greater of two codes up to `top`. Above `top` there must be room for "over".
#[derive(Clone, Copy, Debug, PartialEq, Eq, Hash)]
pub struct Later {
    top: u32,
    ghost roomy: { top < 4294967295 },
}

impl Later {
    /// The later of two codes up to `top`; a top of 4,294,967,295 has no code for "over" and is cut to one less.
    pub fn new(top: u32) -> Later
        ensures { result.top ≡ min top 4294967294 }
    {
        Later {
            top: top.min(4294967294),
        }
    }
}

impl Operation for Later {
    ghost top = { λ s. s.top };

    ghost code = { λ s. later s.top };

    ghost rises = { first_of (Prim.search rules, Prim.grind (arith, Self.row.coded.inj)) };

    ghost bounded = { first_of (Prim.search rules, Prim.grind (arith, Self.row.coded.inj)) };

    ghost over = { first_of (Prim.search rules, Prim.grind (arith, Self.row.coded.inj)) };

    fn apply(&self, a: u32, b: u32) -> u32 {
        if a > self.top || b > self.top {
            return self.top + 1;
        }
        a.max(b)
    }

    fn hint(&self, known: u32, t: u32) -> Option<u32> {
        Some(if known < t { t } else { 0 })
    }
}
