//! What a settle answers.
ghost use Rattle.std.specs.Prelude.{◌≡◌};
ghost use Rattle.runs.specs.Rounds.{answered, left_in};

use law::calls::{Answer, State};

/// How a settle ended.
#[derive(Debug, Clone, Copy, PartialEq, Eq)]
pub enum Settled {
    /// No rule closes the windows further; after so many narrowings.
    Standing(u32),
    /// The allowance, which was used up.
    Spent(u32),
    /// The rule of this number has no choice.
    Barren(u32),
}

impl Settled {
    /// The state that such a settle leaves.
    pub fn state(self) -> State
        ensures { result ≡ left_in self }
    {
        match self {
            Settled::Standing(_) => State::Standing,
            Settled::Spent(_) => State::Unsettled,
            Settled::Barren(_) => State::Barren,
        }
    }
}

impl From<Settled> for Answer {
    ghost from_gives = { λ settled answer. answer ≡ answered settled };

    /// The answer of the settle that ended so.
    fn from(settled: Settled) -> Answer {
        match settled {
            Settled::Standing(count) => Answer::Standing(count),
            Settled::Spent(allowance) => Answer::Spent(allowance),
            Settled::Barren(rule) => Answer::Barren(rule),
        }
    }
}
