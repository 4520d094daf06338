//! Half products and sums for C, as a static library: the exports of `half_export`. C has no type parameters, so each name stands
//! for one.
#![tactic(auto)]

ghost use Rattle.std.specs.Prelude.{ℕ, ◌<◌, ◌≤◌, min, cond, ◌≡◌, ltb, length, get_or};
ghost use Rattle.half.specs.Formats.{half as binary16};
ghost use Rattle.half.specs.Roundings.{product, sum, mode_number};
ghost use Rattle.half.specs.declared.mode.Mode.{Mode as AnyMode};

use half::product::Product;
use half::sum::Sum;
use half_export::{by_mode, rows_by_mode};

/// The half product of a and b in a mode 0, 1 or 2; 4,294,967,295 for any other mode.
#[unsafe(no_mangle)]
pub extern "C" fn half_product(mode: u8, a: u32, b: u32) -> u32
    ensures code { (m : AnyMode) → mode_number m ≡ mode → result ≡ product binary16 m a b }
    ensures none { 2 < mode → result ≡ 4294967295 }
{
    by_mode::<Product>(mode, a, b)
}

/// The half sum of a and b in a mode 0, 1 or 2; 4,294,967,295 for any other mode.
#[unsafe(no_mangle)]
pub extern "C" fn half_sum(mode: u8, a: u32, b: u32) -> u32
    ensures code { (m : AnyMode) → mode_number m ≡ mode → result ≡ sum binary16 m a b }
    ensures none { 2 < mode → result ≡ 4294967295 }
{
    by_mode::<Sum>(mode, a, b)
}

/// Writes the half products of the pairs of two rows into a third, as far as the shortest goes, and answers how many; none in
/// a mode above 2.
#[unsafe(no_mangle)]
pub extern "C" fn half_products(mode: u8, a: &[u32], b: &[u32], out: &mut [u32]) -> usize
    ensures count { result ≡ cond (ltb 2 mode) 0 (min (length a.now) (min (length b.now) (length out.old))) }
    ensures codes { (m : AnyMode) (k : ℕ) → mode_number m ≡ mode → k < result → get_or out.new k 0 ≡ product binary16 m (get_or a.now k 0) (get_or b.now k 0) }
    ensures rest { (k : ℕ) → result ≤ k → get_or out.new k 0 ≡ get_or out.old k 0 }
{
    rows_by_mode::<Product>(mode, a, b, out)
}

/// Writes the half sums of the pairs of two rows into a third, as far as the shortest goes, and answers how many; none in
/// a mode above 2.
#[unsafe(no_mangle)]
pub extern "C" fn half_sums(mode: u8, a: &[u32], b: &[u32], out: &mut [u32]) -> usize
    ensures count { result ≡ cond (ltb 2 mode) 0 (min (length a.now) (min (length b.now) (length out.old))) }
    ensures codes { (m : AnyMode) (k : ℕ) → mode_number m ≡ mode → k < result → get_or out.new k 0 ≡ sum binary16 m (get_or a.now k 0) (get_or b.now k 0) }
    ensures rest { (k : ℕ) → result ≤ k → get_or out.new k 0 ≡ get_or out.old k 0 }
{
    rows_by_mode::<Sum>(mode, a, b, out)
}
