//! Which rules are awake, and windows put by the numbers of their lines, so that the rules of a line whose window moved wake.
ghost use Rattle.std.specs.Prelude.{◌≡◌, ℕ, ◌-◌, ◌<◌, true, [], ◌∷◌, ◌⊎◌, map, take, slice_set};
ghost use Rattle.books.specs.Narrowings.{read, spans};
ghost use Rattle.law.specs.Sheets.{put};
ghost use Rattle.runs.specs.RuleSets.{has};
ghost use Rattle.runs.specs.Wakes.{Indexed, Woken};
ghost use Rattle.windows.specs.Windows.{span};

use crate::lines::Lines;
use crate::naming::Naming;
use crate::rule_set::RuleSet;
use crate::rules::Rules;
use boxes::triple::Triple;
use law::calls::Rule;
use windows::window::Window;

/// The rules that are to be tried again, with the rules by the lines that they name.
#[derive(Clone, Copy)]
pub struct Agenda {
    naming: Naming,
    pub(crate) awake: RuleSet,
}

impl Agenda {
    /// All rules are awake.
    pub(crate) fn of(rules: &Rules) -> Agenda
        ensures listed { Indexed rules.now.items.items result.naming }
        ensures awake { (j : ℕ) → j < 128 → has result.awake j ≡ true }
    {
        Agenda {
            naming: Naming::of(rules),
            awake: RuleSet::full(),
        }
    }

    /// Gives line `k` the window `w`, and wakes the rules that name the line if that is another window than it had.
    fn put_waking(&mut self, lines: &mut Lines, k: u32, w: Window)
        ensures put { map span lines.new.windows.items ≡ slice_set (map span lines.old.windows.items) (k - 1) (span w) }
        ensures woken { Woken self.old (map span lines.old.windows.items) self.new (map span lines.new.windows.items) }
    {
        if lines.window(k) != w {
            lines.put(k, w);
            self.awake.add_all(self.naming.rules_of(k));
        }
    }

    /// Gives the lines that a rule of `count` lines names their windows, and wakes the rules of each line whose window moves.
    pub(crate) fn put_back(
        &mut self,
        lines: &mut Lines,
        rule: Rule,
        count: u32,
        windows: Triple<Window>,
    )
        requires { (count ≡ 2) ⊎ (count ≡ 3) }
        ensures put { map span lines.new.windows.items ≡ put (take count (rule.a ∷ rule.b ∷ rule.c ∷ [])) (read count (spans windows)) (map span lines.old.windows.items) }
        ensures woken { Woken self.old (map span lines.old.windows.items) self.new (map span lines.new.windows.items) }
    {
        self.put_waking(lines, rule.a, windows.a);
        self.put_waking(lines, rule.b, windows.b);
        if count == 3 {
            self.put_waking(lines, rule.c, windows.c);
        }
    }
}
