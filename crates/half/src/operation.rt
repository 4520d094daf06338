//! The half drive's operations: an exact result, rounded in one direction. Product and sum differ in the exact result alone.
ghost use Rattle.std.specs.Prelude.{◌≡◌, ℕ, ◌<◌, ◌≤◌};
ghost use Rattle.std.proofs.Common.{rules};
ghost use Rattle.codes.specs.Operations.{within};
ghost use Rattle.codes.specs.Within.{within_rises};
ghost use Rattle.half.specs.Formats.{half as binary16, Exact as AnyExact};
ghost use Rattle.half.specs.Roundings.{rounded};
ghost use Rattle.half.specs.Rounded.{rounded_rises};
ghost use Rattle.half.specs.Steps.{StandsFor};

use crate::mode::Mode;
use crate::rounding::{OVER, TOP, round};
use crate::unrounded::Unrounded;
use codes::operation::Operation;
use std::marker::PhantomData;

/// The exact result of two half codes.
pub trait Exact {
    ghost exact: { ℕ → ℕ → AnyExact };

    fn exact(a: u32, b: u32) -> Unrounded
        requires { (a ≤ 31743) × (b ≤ 31743) }
        ensures { StandsFor (exact a b) result.digits result.shift };

    /// The parts of a unit are as many for every two codes.
    ghost scale: { (a a' b b' : ℕ) → (exact a b).scale ≡ (exact a' b').scale };

    ghost scaled: { (a b : ℕ) → 0 < (exact a b).scale };

    /// If neither argument falls, the exact result does not fall.
    ghost rises: { (a a' b b' : ℕ) → a ≤ a' → b ≤ b' → (exact a b).parts ≤ (exact a' b').parts };
}

/// The exact result of two half codes, rounded in one direction. Both fields are public, so that one can be written as a constant too,
/// where no function can be called.
#[derive_where(Clone, Copy, Debug, PartialEq, Eq, Hash)]
pub struct Rounded<X> {
    pub mode: Mode,
    pub of: PhantomData<X>,
}

impl<X: Exact> Rounded<X> {
    /// The operation that rounds in this mode.
    pub fn new(mode: Mode) -> Rounded<X>
        ensures { result.mode ≡ mode }
    {
        Rounded {
            mode,
            of: PhantomData,
        }
    }
}

impl<X: Exact> Operation for Rounded<X> {
    ghost top = { λ _. 31743 };

    ghost code = { λ s a b. within 31743 a b (rounded binary16 s.mode (X.exact a b)) };

    ghost rises = { λ s a a' b b' ha hb.
        within_rises 31743 a a' b b' _ _ ha hb
        (rounded_rises binary16 s.mode (X.exact a b) (X.exact a' b') (X.scaled a b) (X.scale a a' b b')
        (X.rises a a' b b' ha hb)) };

    ghost bounded = { Prim.search rules };

    ghost over = { Prim.search rules };

    fn apply(&self, a: u32, b: u32) -> u32 {
        if a > TOP || b > TOP {
            return OVER;
        }
        round(self.mode, X::exact(a, b))
    }
}
