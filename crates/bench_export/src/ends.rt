//! Three windows as C hands them over: plain types laid out for C, in place of `Window` and `Triple`.
ghost use Rattle.std.specs.Prelude.{◌≡◌};
ghost use Rattle.bench_export.specs.Pairs.{pair};
ghost use Rattle.windows.specs.Windows.{span, spanning};

use windows::window::Window;

/// The two ends of a window.
#[repr(C)]
#[derive(Clone, Copy, Debug, PartialEq, Eq, Hash)]
pub struct Pair {
    pub lo: u32,
    pub hi: u32,
}

impl From<Window> for Pair {
    ghost from_gives = { λ window ends. ends ≡ pair window };

    /// The ends of a window.
    fn from(window: Window) -> Pair {
        Pair {
            lo: window.lo(),
            hi: window.hi(),
        }
    }
}

impl From<Pair> for Window {
    ghost from_gives = { λ ends window. span window ≡ spanning ends.lo ends.hi };

    /// The window between two ends.
    fn from(ends: Pair) -> Window {
        Window::spanning(ends.lo, ends.hi)
    }
}

/// The ends of a rule's three windows.
#[repr(C)]
#[derive(Clone, Copy, Debug, PartialEq, Eq, Hash)]
pub struct Ends {
    pub a: Pair,
    pub b: Pair,
    pub c: Pair,
}
