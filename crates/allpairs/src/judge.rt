//! The second method: exact results in f64, judged against a table of the values of all codes.
ghost use Rattle.std.specs.Prelude.{◌≡◌, ◌≤◌, vec_len};

use half::operation::Exact;
use half::product::Product;
use half::sum::Sum;
use std::alloc::{AllocError, Global};

/// The code past the greatest half code.
const OVER: usize = 31744;

/// The least value above zero, 2^-24.
const LEAST: f64 = 0.000000059604644775390625;

/// The values of the codes 0 to 31744.
#[derive(Drop)]
pub(crate) struct Values {
    values: Vec<f64>,
    ghost all: { vec_len values ≡ 31745 },
}

/// A code up to 31744 at which a walk stands.
#[derive(Clone, Copy, Debug, PartialEq, Eq, Hash)]
pub(crate) struct Floor {
    code: usize,
    ghost within: { code ≤ 31744 },
}

impl Floor {
    /// The code 0.
    pub(crate) fn lowest() -> Floor {
        Floor { code: 0 }
    }
}

/// A half operation by a second method: its exact result in f64.
pub(crate) trait InFloats: Exact {
    fn in_f64(a: f64, b: f64) -> f64;
}

impl InFloats for Product {
    fn in_f64(a: f64, b: f64) -> f64 {
        a * b
    }
}

impl InFloats for Sum {
    fn in_f64(a: f64, b: f64) -> f64 {
        a + b
    }
}

impl Values {
    /// Each value is made from the one before: the gap between neighbours is the least value up to the code 2048, and doubles at
    /// 2048 and after every 1024 codes from there on.
    pub(crate) fn of_codes(heap: Global) -> Result<Values, AllocError> {
        let mut values = Vec::new(heap);
        let mut value = 0.0;
        let mut gap = LEAST;
        for code in 0..=OVER {
            if code >= 2048 && code % 1024 == 0 {
                gap *= 2.0;
            }
            values.push(value)?;
            value += gap;
        }
        Ok(Values { values })
    }

    /// The value of a code.
    pub(crate) fn of(&self, code: u32) -> f64
        requires { code ≤ 31744 }
    {
        self.values[code as usize]
    }

    /// Walks up from a code to the greatest one whose value is not above the exact result.
    pub(crate) fn raise(&self, from: Floor, exact: f64) -> Floor {
        let mut floor = from.code;
        // By hand: a walk goes on where the one before stood, and no list is gone over.
        while floor < OVER && self.values[floor + 1] <= exact {
            floor += 1;
        }
        Floor { code: floor }
    }

    /// The codes in modes 0, 1 and 2 of an exact result that lies from the value of `floor` on, below the next one.
    pub(crate) fn judged(&self, floor: Floor, exact: f64) -> [u32; 3] {
        if floor.code == OVER {
            return [31743, 31744, 31744];
        }
        let code = floor.code as u32;
        let below = self.values[floor.code];
        let middle = (below + self.values[floor.code + 1]) / 2.0;
        let nearest = if exact < middle {
            code
        } else if exact > middle {
            code + 1
        } else {
            code + code % 2
        };
        let up = if exact > below { code + 1 } else { code };
        [code, nearest, up]
    }
}
