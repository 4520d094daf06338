//! A window of codes: a lower and an upper end, the lower never above the upper.
ghost use Rattle.std.specs.Prelude.{◌≤◌};

mod calls;

/// A lower and an upper code. No window has its lower end above its upper one.
#[derive(Clone, Copy, Debug, PartialEq, Eq, Hash)]
pub struct Window {
    lo: u32,
    hi: u32,
    ghost ordered: { lo ≤ hi },
}
