//! Three of a kind, one for each place of a rule.

/// What belongs to the first, the second and the third place: three intervals, or three windows.
#[derive(Clone, Copy, Debug, PartialEq, Eq, Hash)]
pub struct Triple<T> {
    pub a: T,
    pub b: T,
    pub c: T,
}
