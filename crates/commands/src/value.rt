//! What a half code means, as an exact decimal number.
ghost use Rattle.std.specs.Prelude.{◌≡◌, ◌<◌, IfOk, string_bytes};
ghost use Rattle.commands.specs.Values.{ExactEnd, end_text};

use half::size::size_of;
use std::alloc::{AllocError, Global};
use std::fmt;

/// How many units, of which a half value has a whole number, make one.
const UNITS: u64 = 16777216;

/// An end of a line's window, as its sheet's book means it.
#[derive(Clone, Copy, Debug, PartialEq, Eq)]
pub enum End {
    /// A count.
    Count(u32),
    /// A half code.
    Half(u32),
}

/// A count as it is, a half code as the exact decimal number of its value. A code above the top stands for whatever is
/// greater, and is written `over`.
impl fmt::Display for End {
    ghost use Rattle.std.specs.Prelude.{Some};
    ghost use Rattle.commands.specs.Values.{end_text};

    ghost output = { λ end. Some (end_text end) };

    fn fmt<W: fmt::Write>(&self, f: &mut fmt::Formatter<W>) -> fmt::Result {
        match *self {
            End::Count(count) => write!(f, "{count}"),
            End::Half(code) => match size_of(code) {
                Some(units) => write!(f, "{}", Size(units)),
                None => f.write_str("over"),
            },
        }
    }
}

/// So many units, as a decimal number.
#[derive(Clone, Copy)]
struct Size(u64);

impl fmt::Display for Size {
    ghost use Rattle.std.specs.Prelude.{Some};
    ghost use Rattle.commands.specs.Values.{exact};

    ghost output = { λ size. Some (exact size.0) };

    fn fmt<W: fmt::Write>(&self, f: &mut fmt::Formatter<W>) -> fmt::Result {
        let whole = self.0 / UNITS;
        let rest = self.0 % UNITS;
        if rest == 0 {
            return write!(f, "{whole}");
        }
        let digits = Digits { rest };
        write!(f, "{whole}.{digits}")
    }
}

/// The digits after the point of a rest of so many units.
#[derive(Clone, Copy)]
struct Digits {
    rest: u64,
    ghost less_than_one: { rest < 16777216 },
}

impl fmt::Display for Digits {
    ghost use Rattle.std.specs.Prelude.{Some};
    ghost use Rattle.commands.specs.Values.{digits_of};

    ghost output = { λ digits. Some (digits_of 24 digits.rest) };

    fn fmt<W: fmt::Write>(&self, f: &mut fmt::Formatter<W>) -> fmt::Result {
        let mut left = self.rest;
        // No more than 24 digits: each takes a factor of two out of what is left.
        for place in 0..24u32 {
            if left == 0 {
                break;
            }
            let tenfold = left * 10;
            f.write_char(char::from(b'0' + (tenfold / UNITS) as u8))?;
            left = tenfold % UNITS;
        }
        Ok(())
    }
}

/// An end as text.
pub fn show_end(heap: Global, end: End) -> Result<String, AllocError>
    ensures text { IfOk result (λ s. string_bytes s ≡ end_text end) }
    ensures exact { ExactEnd end }
{
    end.to_string(heap)
}
