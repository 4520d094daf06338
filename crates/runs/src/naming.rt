//! Which rules name a line: those that may close something once its window moved.
ghost use Rattle.std.specs.Prelude.{◌≡◌, ℕ, ◌-◌, ◌<◌, true};
ghost use Rattle.runs.specs.RuleSets.{has};
ghost use Rattle.runs.specs.Wakes.{Indexed, Listed, rules_of};

use crate::place::place_of;
use crate::rule_set::RuleSet;
use crate::rules::Rules;

/// For each of 64 lines, in the order of their numbers, the set of the rules that name it.
#[derive(Clone, Copy)]
pub struct Naming {
    sets: [RuleSet; 64],
}

impl Naming {
    /// Takes in that the rule at place `i` names line `k`; a number that none of 64 lines has is passed over.
    fn add(&mut self, k: u32, i: usize)
        requires { i < 128 }
        ensures here { Listed self.new i k }
        ensures kept { (p j : ℕ) → has (rules_of self.old p) j ≡ true → has (rules_of self.new p) j ≡ true }
    {
        // By an index, as in `put_at`: `get_mut` would tell a proof nothing of the other sets.
        if k >= 1 && k <= 64 {
            self.sets[k as usize - 1].insert(i);
        }
    }

    /// The rules by the lines that they name.
    pub(crate) fn of(rules: &Rules) -> Naming
        ensures { Indexed rules.now.items.items result }
    {
        let mut naming = Naming {
            sets: [RuleSet::empty(); 64],
        };
        for (i, rule) in rules.items.iter().enumerate() {
            naming.add(rule.a, i);
            naming.add(rule.b, i);
            naming.add(rule.c, i);
        }
        naming
    }

    /// The rules that name line `k`, counted from 1 (0 is read as 1); past the last line there is none.
    pub(crate) fn rules_of(&self, k: u32) -> RuleSet
        ensures { result ≡ rules_of self.now (k - 1) }
    {
        self.sets
            .get(place_of(k))
            .copied()
            .unwrap_or(RuleSet::empty())
    }
}
