//! The sizes of half codes, in units of 2^-24.
ghost use Rattle.std.specs.Prelude.{◌≡◌, ◌^◌, ◌<◌, ◌≤◌, MatchOption};
ghost use Rattle.half.specs.Formats.{half as binary16, size};

use crate::parts::take_apart;
use crate::rounding::TOP;

/// The size of a half code up to top.
pub(crate) fn units_of(code: u32) -> u64
    requires { code ≤ 31743 }
    ensures { (result ≡ size binary16 code) × (result < 2 ^ 40) }
{
    let parts = take_apart(code);
    u64::from(parts.significand) << parts.shift
}

/// The size of a half code; a code above top stands for whatever is greater, and has none.
pub fn size_of(code: u32) -> Option<u64>
    ensures { MatchOption result (31743 < code) (λ units. (code ≤ 31743) × (units ≡ size binary16 code)) }
{
    (code <= TOP).then(|| units_of(code))
}
