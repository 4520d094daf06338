//! The windows of a sheet's lines, and a copy of them that is put aside.
ghost use Rattle.std.specs.Prelude.{◌≡◌, ◌-◌, ◌≤◌, [], ◌∷◌, map, slice_set, vec_len, vec_capacity};
ghost use Rattle.books.specs.Narrowings.{spans};
ghost use Rattle.law.specs.Sheets.{window};
ghost use Rattle.windows.specs.Windows.{span};

use crate::place::{put_at, window_at};
use boxes::triple::Triple;
use law::calls::Rule;
use windows::window::Window;

mod aside;

/// The windows of up to 64 lines, in the order of their numbers. Their room is reserved.
#[derive(Drop)]
pub struct Lines {
    pub windows: Vec<Window>,
    ghost few: { vec_len windows ≤ 64 },
    ghost room: { 64 ≤ vec_capacity windows },
}

impl Lines {
    /// The window of line `k`, counted from 1 (0 is read as 1); past the last line, the window of code 0.
    pub fn window(&self, k: u32) -> Window
        ensures { span result ≡ window (map span self.now.windows.items) k }
    {
        window_at(&self.windows, k)
    }

    /// The windows of the lines that a rule names.
    pub(crate) fn windows_of(&self, rule: Rule) -> Triple<Window>
        ensures { spans result ≡ map (window (map span self.now.windows.items)) (rule.a ∷ rule.b ∷ rule.c ∷ []) }
    {
        Triple {
            a: self.window(rule.a),
            b: self.window(rule.b),
            c: self.window(rule.c),
        }
    }

    /// Gives line `k`, counted from 1 (0 is read as 1), the window `w`; past the last line nothing changes.
    pub fn put(&mut self, k: u32, w: Window)
        ensures { map span self.new.windows.items ≡ slice_set (map span self.old.windows.items) (k - 1) (span w) }
    {
        put_at(&mut self.windows, k, w);
    }
}

/// The windows of lines put aside: the first `count` of these.
// An array with a count beside it: an open may not want memory, as a `Vec` would, and an `ArrayVec` of the kit is not `Copy`.
#[derive(Clone, Copy)]
pub struct Snapshot {
    pub windows: [Window; 64],
    pub count: usize,
    ghost few: { count ≤ 64 },
}
