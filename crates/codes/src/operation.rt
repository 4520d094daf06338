//! What an operation is: its top code, its result for every two codes, and the law of operations.
ghost use Rattle.std.specs.Prelude.{ℕ, ◌+◌, ◌<◌, ◌≤◌, ◌⊎◌, ◌≡◌};
ghost use Rattle.codes.specs.Operations.{Rises};

/// A drive's way to make one code of two. `code` is its meaning; codes run from 0 to `top`, and `top + 1` is "over".
pub trait Operation {
    ghost top: { Self → ℕ };

    ghost code: { Self → ℕ → ℕ → ℕ };

    fn apply(&self, a: u32, b: u32) -> u32
        ensures { result ≡ code self.now a b };

    /// A guess at the least code that, beside the argument `known`, brings the result to `t`. It is told nothing of, so who
    /// asks has to try it out; a good one saves a search.
    fn hint(&self, known: u32, t: u32) -> Option<u32> {
        let _ = (known, t);
        None
    }

    /// If neither argument falls, the result does not fall.
    ghost rises: { (s : Self) → Rises (code s) };

    /// A result is a code up to top, or over.
    ghost bounded: { (s : Self) (a b : ℕ) → code s a b ≤ top s + 1 };

    /// An argument above top gives over.
    ghost over: { (s : Self) (a b : ℕ) → (top s < a) ⊎ (top s < b) → code s a b ≡ top s + 1 };
}
