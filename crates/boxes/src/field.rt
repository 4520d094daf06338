//! The part of the plane that a walk goes through.
ghost use Rattle.std.specs.Prelude.{◌<◌, ◌≤◌};

/// First codes from `x0` before `x1`, second codes from `y0` up to `y1`, and the band of results that count, from `lo` before `end`.
#[derive(Clone, Copy, Debug, PartialEq, Eq, Hash)]
pub struct Field {
    pub x0: u32,
    pub x1: u32,
    pub y0: u32,
    pub y1: u32,
    pub lo: u32,
    pub end: u32,
    ghost across: { x0 < x1 },
    ghost upward: { y0 ≤ y1 },
    ghost right: { x1 < 2147483648 },
    ghost top: { y1 < 2147483648 },
}

/// A point of a walk, with the operation's result there.
#[derive(Clone, Copy, Debug, PartialEq, Eq, Hash)]
pub struct Point {
    pub x: u32,
    pub y: u32,
    pub code: u32,
}
