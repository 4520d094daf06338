//! The one rounding step of products and sums.
ghost use Rattle.std.specs.Prelude.{◌≡◌, ◌-◌, ◌/◌, ◌%◌, ◌^◌, ◌<◌, ◌≤◌, min, max};
ghost use Rattle.half.specs.Formats.{half as binary16, Exact};
ghost use Rattle.half.specs.Roundings.{rounded};
ghost use Rattle.half.specs.Steps.{StandsFor, Length, chosen, limit, nudge as nudge-of};

use crate::mode::Mode;
use crate::parts::put_together;
use crate::unrounded::Unrounded;

/// The top half code.
pub(crate) const TOP: u32 = 31743;

/// The answer "over": one above the top code.
pub(crate) const OVER: u32 = 31744;

/// How many zeros are put below the digits of an exact result, so that the last place kept is never below the lowest.
const ZEROS: u32 = 11;

/// The place of a unit among the digits with their zeros, where the shift is 0.
const UNIT_PLACE: u32 = 35;

/// How many binary digits a number has; 0 is given one.
fn bit_length(n: u64) -> u32
    ensures { Length n result }
{
    64 - (n | 1).leading_zeros()
}

/// The last place kept: eleven digits from the highest one on, or fewer where a unit stands above that place.
fn last_place(length: u32, shift: u32) -> u32
    requires { (length ≤ 64) × (shift ≤ 58) }
    ensures { result ≡ max length (35 - shift) }
{
    (length + shift).max(UNIT_PLACE) - shift
}

/// What is added before lower digits are dropped, so that the mode's choice is made by the carry.
fn nudge(mode: Mode, half: u64, odd: u64) -> u64
    requires { (0 < half) × ((half < 2 ^ 60) × (odd < 2)) }
    ensures { result ≡ nudge-of mode half odd }
{
    match mode {
        Mode::TowardZero => 0,
        Mode::Nearest => half + odd - 1,
        Mode::Up => 2 * half - 1,
    }
}

/// The digits above `place`, rounded by those below it.
fn kept(mode: Mode, digits: u64, place: u32) -> u64
    requires { (1 ≤ place) × ((place ≤ 41) × (digits < 2 ^ 52)) }
    ensures { result ≡ chosen mode (digits / 2 ^ place) (digits % 2 ^ place) (2 ^ place) }
{
    let odd = (digits >> place) & 1;
    (digits + nudge(mode, 1 << (place - 1), odd)) >> place
}

/// A code cut to the greatest that the mode answers.
fn cut(mode: Mode, code: u32) -> u32
    ensures { result ≡ min code (limit binary16 mode) }
{
    match mode {
        Mode::TowardZero => code.min(TOP),
        Mode::Nearest | Mode::Up => code.min(OVER),
    }
}

/// Rounds an exact result to a half code.
pub(crate) fn round(mode: Mode, exact: Unrounded) -> u32
    ensures code { (e : Exact) → StandsFor e exact.digits exact.shift → result ≡ rounded binary16 mode e }
    ensures bounded { result ≤ 31744 }
{
    let place = last_place(bit_length(exact.digits), exact.shift);
    let significand = kept(mode, exact.digits << ZEROS, place) as u32;
    cut(
        mode,
        put_together(place + exact.shift - UNIT_PLACE, significand),
    )
}
