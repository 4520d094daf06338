//! Searches for the first place at which a row of results, which never falls, has come to a given code.
ghost use Rattle.std.specs.Prelude.{◌<◌, ◌≤◌, Some, None};
ghost use Rattle.boxes.specs.Walks.{Reaches};

use codes::operation::Operation;

// Loops by hand: codes are no slice to go over or to part, and a step is doubled or halved at each turn. `rise` and `fall` mirror one
// another, as the walks do.

/// The first code from `low` before `high` whose result with `x` is at least `t`, by halving; else `high`.
pub(crate) fn halve<O: Operation>(op: &O, x: u32, mut low: u32, mut high: u32, t: u32) -> u32
    requires { low ≤ high }
    ensures { Reaches (O.code op.now x) low high t result }
{
    while low < high {
        let middle = low + (high - low) / 2;
        if op.apply(x, middle) >= t {
            high = middle;
        } else {
            low = middle + 1;
        }
    }
    low
}

/// The first code from `from` before `end` whose result with `x` is at least `t`, or `end`, where the operation's hint is that code.
fn hinted<O: Operation>(op: &O, x: u32, from: u32, end: u32, t: u32) -> Option<u32>
    requires { from ≤ end }
    ensures { elim result [ Some k ↦ Reaches (O.code op.now x) from end t k | None ↦ Unit {0} ] }
{
    let guess = op.hint(x, t)?.max(from).min(end);
    if guess > from && op.apply(x, guess - 1) >= t {
        return None;
    }
    if guess < end && op.apply(x, guess) < t {
        return None;
    }
    Some(guess)
}

/// The first code from `from` before `end` whose result with `x` is at least `t`, or `end`: as hinted, or looked for in growing steps from below.
pub(crate) fn rise<O: Operation>(op: &O, x: u32, from: u32, end: u32, t: u32) -> u32
    requires { (from ≤ end) × (end < 2147483648) }
    ensures { Reaches (O.code op.now x) from end t result }
{
    if let Some(found) = hinted(op, x, from, end, t) {
        return found;
    }
    let mut low = from;
    let mut step = 1;
    while step <= end - low {
        let probe = low + (step - 1);
        if op.apply(x, probe) >= t {
            return halve(op, x, low, probe, t);
        }
        low = probe + 1;
        step *= 2;
    }
    halve(op, x, low, end, t)
}

/// The same code as `rise` finds: as hinted, or looked for in growing steps from above.
pub(crate) fn fall<O: Operation>(op: &O, x: u32, from: u32, end: u32, t: u32) -> u32
    requires { (from ≤ end) × (end < 2147483648) }
    ensures { Reaches (O.code op.now x) from end t result }
{
    if let Some(found) = hinted(op, x, from, end, t) {
        return found;
    }
    let mut high = end;
    let mut step = 1;
    while step <= high - from {
        let probe = high - step;
        if op.apply(x, probe) < t {
            return halve(op, x, probe + 1, high, t);
        }
        high = probe;
        step *= 2;
    }
    halve(op, x, from, high, t)
}
