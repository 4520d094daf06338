//! Half products and sums by the number of their mode: one pair at a time, or the pairs of two rows of codes.
//! `half_export_c` exports them for C.
#![tactic(auto)]

mod rows;

ghost use Rattle.std.specs.Prelude.{ℕ, ◌<◌, ◌≤◌, min, cond, ◌≡◌, ltb, length, get_or};
ghost use Rattle.codes.specs.Operations.{within};
ghost use Rattle.half.specs.Formats.{half as binary16};
ghost use Rattle.half.specs.Roundings.{rounded, mode_number};
ghost use Rattle.half.specs.declared.mode.Mode.{Mode as AnyMode};

use codes::operation::Operation;
use half::mode::Mode;
use half::operation::{Exact, Rounded};
use rows::fill;

/// The answer to a mode that there is none of: a number, since C takes it as it is.
const NO_MODE: u32 = 4294967295;

/// The rounded result of a and b in a mode 0, 1 or 2; 4,294,967,295 for any other mode.
pub fn by_mode<X: Exact>(mode: u8, a: u32, b: u32) -> u32
    ensures code { (m : AnyMode) → mode_number m ≡ mode → result ≡ within 31743 a b (rounded binary16 m (X.exact a b)) }
    ensures none { 2 < mode → result ≡ 4294967295 }
{
    match Mode::try_from(mode) {
        Ok(mode) => Rounded::<X>::new(mode).apply(a, b),
        Err(_) => NO_MODE,
    }
}

/// Writes the rounded results of the pairs of two rows into a third, as far as the shortest goes, and answers how many; none in
/// a mode above 2.
pub fn rows_by_mode<X: Exact>(mode: u8, a: &[u32], b: &[u32], out: &mut [u32]) -> usize
    ensures count { result ≡ cond (ltb 2 mode) 0 (min (length a.now) (min (length b.now) (length out.old))) }
    ensures codes { (m : AnyMode) (k : ℕ) → mode_number m ≡ mode → k < result → get_or out.new k 0 ≡ within 31743 (get_or a.now k 0) (get_or b.now k 0) (rounded binary16 m (X.exact (get_or a.now k 0) (get_or b.now k 0))) }
    ensures rest { (k : ℕ) → result ≤ k → get_or out.new k 0 ≡ get_or out.old k 0 }
{
    match Mode::try_from(mode) {
        Ok(mode) => fill(Rounded::<X>::new(mode), a, b, out),
        // No row is written, as C is told.
        Err(_) => 0,
    }
}
