//! Kinds by their numbers.
ghost use Rattle.std.specs.Prelude.{◌≡◌};
ghost use Rattle.books.specs.Kinds.{Decodes, among, lines, lines_of};

use super::{Kind, UnknownKind};

impl TryFrom<u32> for Kind {
    type Error = UnknownKind;

    ghost try_from_gives = { Decodes };

    /// The kind of this number.
    fn try_from(number: u32) -> Result<Kind, UnknownKind> {
        match number {
            2 => Ok(Kind::Travel),
            3 => Ok(Kind::Sum),
            4 => Ok(Kind::Later),
            5 => Ok(Kind::NotAfter),
            _ => Err(UnknownKind(number)),
        }
    }
}

impl Kind {
    /// The kind of this number if `kinds` has it, told by its place.
    pub(crate) fn among(kinds: &[bool; 8], number: u32) -> Option<Kind>
        ensures { result ≡ among kinds.now number }
    {
        if number < 8 && kinds[number as usize] {
            Kind::try_from(number).ok()
        } else {
            None
        }
    }

    /// How many lines the kind names.
    pub(crate) fn lines(self) -> u32
        ensures { result ≡ lines self }
    {
        match self {
            Kind::Travel | Kind::Sum | Kind::Later => 3,
            Kind::NotAfter => 2,
        }
    }

    /// How many lines the kind of this number names if `kinds` has it, else 0.
    pub(crate) fn lines_among(kinds: &[bool; 8], number: u32) -> u32
        ensures { result ≡ lines_of (among kinds.now number) }
    {
        Kind::among(kinds, number).map_or(0, Kind::lines)
    }
}
