//! The rule kinds.

mod calls;

/// The kinds 2 to 5, by their places.
pub(crate) const TWO_TO_FIVE: [bool; 8] = [false, false, true, true, true, true, false, false];

/// What ties the lines of a rule together.
#[derive(Clone, Copy, Debug, PartialEq, Eq, Hash)]
pub(crate) enum Kind {
    /// 2: the product of a and b is c.
    Travel,
    /// 3: the sum of a and b is c.
    Sum,
    /// 4: the greater of a and b is c.
    Later,
    /// 5: a is not above b; names two lines.
    NotAfter,
}

/// A number that no kind has.
#[derive(Clone, Copy, Debug, PartialEq, Eq, Hash)]
pub(crate) struct UnknownKind(pub(crate) u32);
