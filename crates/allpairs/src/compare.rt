//! The comparison over all pairs.
ghost use Rattle.std.specs.Prelude.{◌≤◌};

use crate::judge::{Floor, InFloats, Values};
use codes::operation::Operation;
use half::mode::Mode;
use half::operation::Rounded;

/// The top half code.
const TOP: u32 = 31743;

/// How many pairs were compared, and how many differed in each mode.
#[derive(Clone, Copy, Debug, PartialEq, Eq, Hash)]
pub(crate) struct Tally {
    pub(crate) pairs: u64,
    pub(crate) differences: [u64; 3],
}

impl Tally {
    /// Counts one pair by its two answers in each mode.
    fn count(&mut self, ours: [u32; 3], judged: [u32; 3]) {
        self.pairs = self.pairs.saturating_add(1);
        for (count, (our, its)) in self.differences.iter_mut().zip(ours.iter().zip(&judged)) {
            if our != its {
                *count = count.saturating_add(1);
            }
        }
    }
}

/// Compares the pairs of a with every code from a on. The answer is the code below the exact result of a and a, where the
/// next row's walk may begin.
fn compare_row<X: InFloats>(values: &Values, a: u32, from: Floor, tally: &mut Tally) -> Floor
    requires { a ≤ 31743 }
{
    let first = values.of(a);
    let start = values.raise(from, X::in_f64(first, first));
    let mut floor = start;
    for b in a..=TOP {
        let exact = X::in_f64(first, values.of(b));
        floor = values.raise(floor, exact);
        let ours = [Mode::TowardZero, Mode::Nearest, Mode::Up].map(|mode| Rounded::<X>::new(
            mode,
        ).apply(a, b));
        tally.count(ours, values.judged(floor, exact));
    }
    start
}

/// Compares every unordered pair of half codes.
pub(crate) fn compare_all<X: InFloats>(values: &Values) -> Tally {
    let mut tally = Tally {
        pairs: 0,
        differences: [0, 0, 0],
    };
    let mut from = Floor::lowest();
    for a in 0..=TOP {
        from = compare_row::<X>(values, a, from, &mut tally);
    }
    tally
}
