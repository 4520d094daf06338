//! An operation on the pairs of two rows of codes.
ghost use Rattle.std.specs.Prelude.{ℕ, ◌<◌, ◌≤◌, min, ◌≡◌, length, get_or};

use codes::operation::Operation;

/// Writes the results of the pairs of two rows into a third, as far as the shortest goes, and answers how many.
pub(crate) fn fill<O: Operation + Drop>(op: O, a: &[u32], b: &[u32], out: &mut [u32]) -> usize
    ensures count { result ≡ min (length a.now) (min (length b.now) (length out.old)) }
    ensures codes { (k : ℕ) → k < result → get_or out.new k 0 ≡ O.Operation.code op (get_or a.now k 0) (get_or b.now k 0) }
    ensures rest { (k : ℕ) → result ≤ k → get_or out.new k 0 ≡ get_or out.old k 0 }
{
    let count = a.len().min(b.len()).min(out.len());
    // By index: a proof knows nothing of a slice that was written through a `zip` of its `iter_mut`.
    for i in 0..count {
        out[i] = op.apply(a[i], b[i]);
    }
    count
}
