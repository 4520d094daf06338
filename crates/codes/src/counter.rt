//! The counter drive's product and sum.
ghost use Rattle.codes.specs.Counter.{counter_product, counter_sum};
ghost use Rattle.std.specs.Prelude.{◌*◌, ◌/◌, ◌≤◌};
ghost use Rattle.std.proofs.Common.{mul-le-mul, arith, rules};
ghost use Rattle.codes.specs.Within.{within_rises};

use crate::operation::Operation;

/// The counter drive's top code.
const TOP: u32 = 65535;

/// The answer "over": one above the top code.
const OVER: u32 = 65536;

// Product, sum and the later code share the guard of an argument above top, and differ in what they work out, not in a type.

/// The counter product: a × b divided by 1000, the remainder dropped.
#[derive(Clone, Copy, Debug, PartialEq, Eq, Hash)]
pub struct CounterProduct;

impl Operation for CounterProduct {
    ghost top = { λ _. 65535 };

    ghost code = { λ _. counter_product };

    ghost rises = { λ s a a' b b' ha hb.
        let whole : a * b ≤ a' * b' = mul-le-mul ha hb in
        let short : a * b / 1000 ≤ a' * b' / 1000 = omega arith in
        within_rises 65535 a a' b b' (a * b / 1000) (a' * b' / 1000) ha hb short };

    ghost bounded = { Prim.search rules };

    ghost over = { Prim.search rules };

    fn apply(&self, a: u32, b: u32) -> u32 {
        if a > TOP || b > TOP {
            return OVER;
        }
        let short = u64::from(a) * u64::from(b) / 1000;
        if short > 65535 { OVER } else { short as u32 }
    }

    fn hint(&self, known: u32, t: u32) -> Option<u32> {
        if known == 0 || known > TOP || t > OVER {
            return None;
        }
        Some((t * 1000).div_ceil(known))
    }
}

/// The counter sum: a + b.
#[derive(Clone, Copy, Debug, PartialEq, Eq, Hash)]
pub struct CounterSum;

impl Operation for CounterSum {
    ghost top = { λ _. 65535 };

    ghost code = { λ _. counter_sum };

    ghost rises = { Prim.search rules };

    ghost bounded = { Prim.search rules };

    ghost over = { Prim.search rules };

    fn apply(&self, a: u32, b: u32) -> u32 {
        if a > TOP || b > TOP {
            return OVER;
        }
        let sum = a + b;
        if sum > TOP { OVER } else { sum }
    }

    fn hint(&self, known: u32, t: u32) -> Option<u32> {
        Some(t.saturating_sub(known))
    }
}
