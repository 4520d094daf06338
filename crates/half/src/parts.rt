//! Half codes taken apart and put together.
ghost use Rattle.std.specs.Prelude.{◌≡◌, ◌+◌, ◌*◌, ◌%◌, ◌<◌, ◌≤◌};
ghost use Rattle.half.specs.Steps.{Parted};

/// How many bits the fraction of a half code has.
const FRACTION_BITS: u32 = 10;

/// The bits of the fraction.
const FRACTION_MASK: u32 = 1023;

/// The one bit above the fraction, which a code with an exponent above 0 leaves out.
const ONE_BIT: u32 = 1024;

/// The fraction of a code, its lower ten bits.
fn fraction_of(code: u32) -> u32
    ensures { result ≡ code % 1024 }
{
    code & FRACTION_MASK
}

/// A half code taken apart: its size is `significand × 2^shift` units.
#[derive(Clone, Copy, Debug, PartialEq, Eq, Hash)]
pub(crate) struct Parts {
    pub(crate) significand: u32,
    pub(crate) shift: u32,
}

/// Takes a half code up to top apart.
pub(crate) fn take_apart(code: u32) -> Parts
    requires { code ≤ 31743 }
    ensures { Parted code result.significand result.shift }
{
    let fraction = fraction_of(code);
    let exponent = code >> FRACTION_BITS;
    if exponent == 0 {
        Parts {
            significand: fraction,
            shift: 0,
        }
    } else {
        Parts {
            significand: fraction | ONE_BIT,
            shift: exponent - 1,
        }
    }
}

/// The code with this exponent and this fraction.
fn join(exponent: u32, fraction: u32) -> u32
    requires { (exponent < 1024) × (fraction < 1024) }
    ensures { result ≡ 1024 * exponent + fraction }
{
    (exponent << FRACTION_BITS) | fraction
}

/// Puts the code of a shift and a significand together; a significand of 2048, to which rounding carries, moves on to the
/// next exponent.
pub(crate) fn put_together(shift: u32, significand: u32) -> u32
    requires { (shift ≤ 64) × (significand ≤ 2048) }
    ensures { result ≡ 1024 * shift + significand }
{
    join(
        shift + (significand >> FRACTION_BITS),
        fraction_of(significand),
    )
}
