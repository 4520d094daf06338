//! Words that are numbers.
ghost use Rattle.std.specs.Prelude.{◌≡◌, true};
ghost use Rattle.commands.specs.Numbers.{is_decimal, number as number_of, small, spells};

use crate::command::Unreadable;

/// What decimal digits spell, where it is no more than the greatest number of 32 bits.
fn spelled_value(digits: &[u8]) -> Option<u32>
    requires { is_decimal digits.now ≡ true }
    ensures { result ≡ small (spells 0 digits.now) }
{
    let mut value: u32 = 0;
    // No `try_fold`: its closure would need a contract of its own, and reads no plainer than `?` in a loop.
    for digit in digits {
        value = value
            .checked_mul(10)?
            .checked_add(u32::from(*digit - b'0'))?;
    }
    Some(value)
}

/// The number that a word is.
pub(crate) fn read_number(word: &[u8]) -> Result<u32, Unreadable>
    ensures { result ≡ number_of word.now }
{
    if !word.iter().all(|byte| byte.is_ascii_digit()) {
        return Err(Unreadable::NoNumber);
    }
    spelled_value(word).ok_or(Unreadable::TooLarge)
}
