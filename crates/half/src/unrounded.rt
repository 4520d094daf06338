//! An exact result before it is rounded.
ghost use Rattle.std.specs.Prelude.{◌^◌, ◌<◌, ◌≤◌};

/// An exact result held as `digits × 2^shift` parts, 2^24 of which make a unit.
#[derive(Clone, Copy, Debug, PartialEq, Eq, Hash)]
pub struct Unrounded {
    pub(crate) digits: u64,
    pub(crate) shift: u32,
    ghost small: { digits < 2 ^ 41 },
    ghost low: { shift ≤ 58 },
    ghost some: { (34 < shift → 0 < digits) },
}
