//! What holds of the roundings for every format, and of half products and sums for every two codes, on the contracts of
//! small public calls.
ghost use Rattle.std.specs.Prelude.{◌≡◌};
ghost use Rattle.half.specs.Formats.{half as binary16};
ghost use Rattle.half.specs.Laws.{RoundingLaw, HalfLaw, HalfCases};

use crate::rounding::{OVER, TOP};

/// The top half code. Its contract names the law of every rounding, and that of half products and sums.
pub fn half_top() -> u32
    ensures top { result ≡ binary16.top }
    ensures rounding { RoundingLaw }
    ensures half { HalfLaw }
{
    TOP
}

/// The half drive's answer "over". Its contract names the worked cases.
pub fn half_over() -> u32
    ensures over { result ≡ 31744 }
    ensures cases { HalfCases }
{
    OVER
}
