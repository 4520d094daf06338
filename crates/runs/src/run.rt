//! The run of settle: rules are tried in rounds, each on the windows that the try before left.
ghost use Rattle.std.specs.Prelude.{◌≡◌, ◌≤◌, true, map};
ghost use Rattle.runs.specs.Rounds.{Attempted, Counted, Ended, FitTry, Ready, Rounded};
ghost use Rattle.runs.specs.Wakes.{Calm, Woken};
ghost use Rattle.windows.specs.Windows.{span};

use crate::lines::Lines;
use crate::rules::Rules;
use crate::settled::Settled;
use crate::wake::Agenda;
use books::book::Book;
use books::narrowing::Unfit;
use law::calls::Rule;

/// What the try of one rule came to.
// Four outcomes, which one match takes: in a `Result` of a `bool` two of them would have no name.
#[derive(Debug, Clone, Copy, PartialEq, Eq)]
pub enum Attempt {
    /// The rule has no choice.
    NoChoice,
    /// The rule closes nothing.
    Still,
    /// A narrowing, done.
    Narrowed,
    /// A narrowing for which there was no room.
    LeftUndone,
}

/// Tries one rule on the windows as they are; a narrowing is done only where there is room for it, and wakes the rules of each line that it moves.
fn try_rule<B: Book>(
    book: &B,
    agenda: &mut Agenda,
    lines: &mut Lines,
    rule: Rule,
    room: bool,
) -> Attempt
    ensures room { result ≡ Attempt.Narrowed → room ≡ true }
    ensures tried { FitTry (B.meaning book.now) (map span lines.old.windows.items) rule
        → Attempted (B.meaning book.now) rule room (map span lines.old.windows.items) (map span lines.new.windows.items) result }
    ensures woken { Woken agenda.old (map span lines.old.windows.items) agenda.new (map span lines.new.windows.items) }
{
    let before = lines.windows_of(rule);
    match book.narrow(rule.kind, before) {
        Err(Unfit) => Attempt::Still,
        Ok(None) => Attempt::NoChoice,
        Ok(Some(after)) => {
            if after == before {
                Attempt::Still
            } else if room {
                agenda.put_back(lines, rule, B::lines(rule.kind), after);
                Attempt::Narrowed
            } else {
                Attempt::LeftUndone
            }
        }
    }
}

/// One round, begun with `start` narrowings of `n`: the rules in order, each on the windows that the try before left. Rules that
/// are not awake are still, and passed over; one that was tried goes to sleep. Answers how many narrowings there were by its end,
/// or else how the run ends with it.
fn play_round<B: Book>(
    book: &B,
    rules: &Rules,
    agenda: &mut Agenda,
    lines: &mut Lines,
    n: u32,
    start: u32,
) -> Result<u32, Settled>
    requires { start ≤ n }
    ensures counted { Counted n start result }
    ensures rounded { Calm (B.meaning book.now) rules.now.items.items agenda.old (map span lines.old.windows.items)
        → Calm (B.meaning book.now) rules.now.items.items agenda.new (map span lines.new.windows.items)
        × Rounded (B.meaning book.now) rules.now.items.items n start (map span lines.old.windows.items) (map span lines.new.windows.items) result }
{
    let mut count = start;
    // From rule awake to rule awake, and not by a `for` over all rules: a round with few of them awake would cost as much as one
    // with all.
    let mut next = agenda.awake.next(0);
    while let Some(rule) = rules.items.get(next) {
        match try_rule(book, agenda, lines, *rule, count < n) {
            Attempt::NoChoice => return Err(Settled::Barren(next as u32 + 1)),
            Attempt::Still => {}
            Attempt::Narrowed => count += 1,
            Attempt::LeftUndone => return Err(Settled::Spent(n)),
        }
        agenda.awake.remove(next);
        next = agenda.awake.next(next);
    }
    if count == start {
        Err(Settled::Standing(count))
    } else {
        Ok(count)
    }
}

/// The run of settle with an allowance of `n` narrowings. Where it ends barren, the windows are left as they came to be.
pub(crate) fn run<B: Book>(book: &B, rules: &Rules, lines: &mut Lines, n: u32) -> Settled
    ensures { Ready (B.meaning book.now) rules.now.items.items (map span lines.old.windows.items)
        → Ended (B.meaning book.now) rules.now.items.items n (map span lines.old.windows.items) (map span lines.new.windows.items) result }
{
    let mut agenda = Agenda::of(rules);
    let mut count = 0;
    // A loop with no list: a round says whether another follows.
    'rounds: loop {
        match play_round(book, rules, &mut agenda, lines, n, count) {
            Ok(more) => count = more,
            Err(settled) => return settled,
        }
    }
}
