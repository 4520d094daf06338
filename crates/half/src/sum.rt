//! The half drive's sum.
ghost use Rattle.std.specs.Prelude.{refl};
ghost use Rattle.half.specs.Formats.{half as binary16, exact_sum};
ghost use Rattle.half.specs.Sizes.{size_rises};
ghost use Rattle.std.proofs.Common.{arith};

use crate::operation::{Exact, Rounded};
use crate::size::units_of;
use crate::unrounded::Unrounded;

/// A unit has 2^24 of the parts that an exact result is held in.
const UNIT_BITS: u32 = 24;

/// Sums of half codes.
#[derive(Clone, Copy, Debug, PartialEq, Eq, Hash)]
pub struct Sum;

/// The half sum, rounded in one direction.
pub type HalfSum = Rounded<Sum>;

impl Exact for Sum {
    ghost exact = { exact_sum binary16 };

    ghost scale = { λ a a' b b'. refl };

    ghost scaled = { λ a b. omega arith };

    ghost rises = { λ a a' b b' ha hb.
        omega (arith, size_rises binary16 a a' ha, size_rises binary16 b b' hb) };

    /// Whole units.
    fn exact(a: u32, b: u32) -> Unrounded {
        Unrounded {
            digits: units_of(a) + units_of(b),
            shift: UNIT_BITS,
        }
    }
}
