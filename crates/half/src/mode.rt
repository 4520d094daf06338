//! The three rounding directions of the half drive.
ghost use Rattle.std.specs.Prelude.{◌≡◌};
ghost use Rattle.half.specs.Roundings.{Decodes, mode_number};

/// A rounding direction.
#[derive(Clone, Copy, Debug, PartialEq, Eq, Hash)]
pub enum Mode {
    /// Down to the greatest code that is not above the exact result.
    TowardZero,
    /// To the nearest code, at a tie to the even one.
    Nearest,
    /// Up to the least code that is not below the exact result.
    Up,
}

/// A number that no mode has.
#[derive(Clone, Copy, Debug, PartialEq, Eq, Hash)]
pub struct UnknownMode(pub u8);

impl TryFrom<u8> for Mode {
    type Error = UnknownMode;

    ghost try_from_gives = { Decodes };

    /// The mode of this number; no mode has a number above 2.
    fn try_from(number: u8) -> Result<Mode, UnknownMode> {
        match number {
            0 => Ok(Mode::TowardZero),
            1 => Ok(Mode::Nearest),
            2 => Ok(Mode::Up),
            _ => Err(UnknownMode(number)),
        }
    }
}

impl From<Mode> for u8 {
    ghost from_gives = { λ mode number. number ≡ mode_number mode };

    /// The mode's number.
    fn from(mode: Mode) -> u8 {
        match mode {
            Mode::TowardZero => 0,
            Mode::Nearest => 1,
            Mode::Up => 2,
        }
    }
}
