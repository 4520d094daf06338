//! Making and reading windows.
ghost use Rattle.std.specs.Prelude.{◌≡◌};
ghost use Rattle.std.specs.Option.{option_map};
ghost use Rattle.windows.specs.Windows.{single, span, spanned, spanning};

use super::Window;

impl Window {
    /// The window from `lo` to `hi`, or `None` where `lo` is above `hi`.
    pub fn new(lo: u32, hi: u32) -> Option<Window>
        ensures { option_map span result ≡ spanned lo hi }
    {
        if lo <= hi {
            Some(Window { lo, hi })
        } else {
            None
        }
    }

    /// The window from the lesser to the greater of two codes.
    pub fn spanning(x: u32, y: u32) -> Window
        ensures { span result ≡ spanning x y }
    {
        Window {
            lo: x.min(y),
            hi: x.max(y),
        }
    }

    /// The window that holds one code.
    pub fn single(code: u32) -> Window
        ensures { span result ≡ single code }
    {
        Window { lo: code, hi: code }
    }

    /// The lower end.
    pub fn lo(&self) -> u32
        ensures { result ≡ self.now.lo }
    {
        self.lo
    }

    /// The upper end.
    pub fn hi(&self) -> u32
        ensures { result ≡ self.now.hi }
    {
        self.hi
    }
}
