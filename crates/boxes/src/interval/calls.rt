//! Making and reading intervals.
ghost use Rattle.std.specs.Prelude.{◌≡◌};
ghost use Rattle.boxes.specs.Intervals.{ends, spanned};
ghost use Rattle.std.specs.Option.{option_map};

use super::Interval;

impl Interval {
    /// The interval from `lo` to `hi`, or `None` where `lo` is above `hi` or `hi` above 2,147,483,646.
    pub fn new(lo: u32, hi: u32) -> Option<Interval>
        ensures { option_map ends result ≡ spanned lo hi }
    {
        if lo <= hi && hi < 2147483647 {
            Some(Interval { lo, hi })
        } else {
            None
        }
    }

    /// The lower end.
    pub fn lo(&self) -> u32
        ensures { result ≡ self.now.lo }
    {
        self.lo
    }

    /// The upper end.
    pub fn hi(&self) -> u32
        ensures { result ≡ self.now.hi }
    {
        self.hi
    }
}
