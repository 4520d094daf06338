//! The half drive's product.
ghost use Rattle.std.specs.Prelude.{refl};
ghost use Rattle.half.specs.Formats.{half as binary16, exact_product};
ghost use Rattle.half.specs.Sizes.{size_rises};
ghost use Rattle.std.proofs.Common.{mul-le-mul, pow_pos};

use crate::operation::{Exact, Rounded};
use crate::parts::take_apart;
use crate::unrounded::Unrounded;

/// Products of half codes.
#[derive(Clone, Copy, Debug, PartialEq, Eq, Hash)]
pub struct Product;

/// The half product, rounded in one direction.
pub type HalfProduct = Rounded<Product>;

impl Exact for Product {
    ghost exact = { exact_product binary16 };

    ghost scale = { λ a a' b b'. refl };

    ghost scaled = { λ a b. pow_pos 24 };

    ghost rises = { λ a a' b b' ha hb.
        mul-le-mul (size_rises binary16 a a' ha) (size_rises binary16 b b' hb) };

    /// The product of the significands, at the sum of the shifts.
    fn exact(a: u32, b: u32) -> Unrounded {
        let first = take_apart(a);
        let second = take_apart(b);
        Unrounded {
            digits: u64::from(first.significand * second.significand),
            shift: first.shift + second.shift,
        }
    }
}
