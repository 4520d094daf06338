//! Windows by the numbers of their lines.
ghost use Rattle.std.specs.Prelude.{◌≡◌, ◌-◌, min, max, map, slice_set};
ghost use Rattle.law.specs.Sheets.{window};
ghost use Rattle.windows.specs.Windows.{span, spanning};

use windows::window::Window;

/// The place of line `k`, counted from 1 (0 is read as 1).
pub(crate) fn place_of(k: u32) -> usize
    ensures { result ≡ k - 1 }
{
    k.saturating_sub(1) as usize
}

/// The window of line `k`, counted from 1 (0 is read as 1); past the last line, the window of code 0.
pub fn window_at(lines: &[Window], k: u32) -> Window
    ensures { span result ≡ window (map span lines.now) k }
{
    lines.get(place_of(k)).copied().unwrap_or(Window::single(0))
}

/// Gives line `k`, counted from 1 (0 is read as 1), the window `w`; past the last line nothing changes.
pub fn put_at(lines: &mut [Window], k: u32, w: Window)
    ensures { map span lines.new ≡ slice_set (map span lines.old) (k - 1) (span w) }
{
    // By an index: once the borrow of `get_mut` is over, the check knows the slice's length and no element.
    let place = place_of(k);
    if place < lines.len() {
        lines[place] = w;
    }
}

/// What lies in the window and in `lo` to `hi` as well, where anything does.
pub fn cut_down(present: Window, lo: u32, hi: u32) -> Window
    ensures { span result ≡ spanning (max present.lo lo) (min present.hi hi) }
{
    Window::spanning(present.lo().max(lo), present.hi().min(hi))
}
