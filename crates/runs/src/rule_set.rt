//! Sets of rules. A rule goes by its place among the rules, counted from 0.
ghost use Rattle.std.specs.Prelude.{◌≡◌, ℕ, ◌<◌, ◌≤◌, true, false, ◌||◌, ◌≢◌};
ghost use Rattle.runs.specs.RuleSets.{has, none};

/// A set of up to 128 rules: the one at place i is in it where bit i is set.
#[derive(Debug, Clone, Copy, PartialEq, Eq)]
pub struct RuleSet {
    bits: u128,
}

impl RuleSet {
    /// The set of no rule.
    pub(crate) fn empty() -> RuleSet
        ensures { result ≡ none }
    {
        RuleSet { bits: 0 }
    }

    /// The set of all places.
    pub(crate) fn full() -> RuleSet
        ensures { (j : ℕ) → j < 128 → has result j ≡ true }
    {
        RuleSet { bits: u128::MAX }
    }

    /// The first place from `from` on whose rule is in the set; where there is none, a number past all places.
    // No `Option`: who passes places over compares one number, whether a rule is left or not.
    pub(crate) fn next(&self, from: usize) -> usize
        requires { from < 128 }
        ensures onward { from ≤ result }
        ensures passed { (j : ℕ) → from ≤ j → j < result → has self.now j ≡ false }
        ensures here { result < 128 → has self.now result ≡ true }
    {
        from + (self.bits >> from).trailing_zeros() as usize
    }

    /// Takes in the rule at place `i`.
    pub(crate) fn insert(&mut self, i: usize)
        requires { i < 128 }
        ensures here { has self.new i ≡ true }
        ensures others { (j : ℕ) → (j ≢ i) → has self.new j ≡ has self.old j }
    {
        self.bits |= 1 << i;
    }

    /// Puts out the rule at place `i`.
    pub(crate) fn remove(&mut self, i: usize)
        requires { i < 128 }
        ensures here { has self.new i ≡ false }
        ensures others { (j : ℕ) → (j ≢ i) → has self.new j ≡ has self.old j }
    {
        let bits = self.bits;
        self.bits = bits & !(1 << i);
    }

    /// Takes in all rules of another set.
    pub(crate) fn add_all(&mut self, other: RuleSet)
        ensures { (j : ℕ) → has self.new j ≡ (has self.old j || has other j) }
    {
        self.bits |= other.bits;
    }
}
