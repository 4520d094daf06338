//! The first words of the commands.

use crate::command::Unreadable;

/// The first word of a command.
#[derive(Clone, Copy, Debug, PartialEq, Eq)]
pub(crate) enum Verb {
    Sheet,
    Use,
    Line,
    Rule,
    Pinch,
    Settle,
    Open,
    Keep,
    Strike,
    Window,
    State,
    Lines,
    Store,
    Load,
    Value,
    Help,
}

impl Verb {
    ghost use Rattle.std.specs.Prelude.{◌≡◌};
    ghost use Rattle.commands.specs.Verbs.{spelled};

    // A table that is searched, and not a match on the word: a match on bytes is taken apart byte by byte, into some 80 goals.
    const ALL: [Verb; 16] = [
        Verb::Sheet,
        Verb::Use,
        Verb::Line,
        Verb::Rule,
        Verb::Pinch,
        Verb::Settle,
        Verb::Open,
        Verb::Keep,
        Verb::Strike,
        Verb::Window,
        Verb::State,
        Verb::Lines,
        Verb::Store,
        Verb::Load,
        Verb::Value,
        Verb::Help,
    ];

    /// The word.
    fn word(self) -> &'static [u8]
        ensures { result.now ≡ spelled self }
    {
        match self {
            Verb::Sheet => b"sheet",
            Verb::Use => b"use",
            Verb::Line => b"line",
            Verb::Rule => b"rule",
            Verb::Pinch => b"pinch",
            Verb::Settle => b"settle",
            Verb::Open => b"open",
            Verb::Keep => b"keep",
            Verb::Strike => b"strike",
            Verb::Window => b"window",
            Verb::State => b"state",
            Verb::Lines => b"lines",
            Verb::Store => b"store",
            Verb::Load => b"load",
            Verb::Value => b"value",
            Verb::Help => b"help",
        }
    }
}

/// The verb that a word spells.
impl TryFrom<&[u8]> for Verb {
    type Error = Unreadable;

    ghost use Rattle.std.specs.Prelude.{◌≡◌};
    ghost use Rattle.std.specs.Option.{ok_or};
    ghost use Rattle.commands.specs.declared.command.Unreadable.TheVariants.{NoCommand};
    ghost use Rattle.commands.specs.Verbs.{verb as verb-of};

    ghost try_from_gives = { λ word r. r ≡ ok_or (verb-of word.now) NoCommand };

    fn try_from(word: &[u8]) -> Result<Verb, Unreadable> {
        Verb::ALL
            .iter()
            .find(|verb| word == verb.word())
            .copied()
            .ok_or(Unreadable::NoCommand)
    }
}
