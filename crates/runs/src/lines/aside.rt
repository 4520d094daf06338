//! Windows put aside, and brought back.
ghost use Rattle.std.specs.Prelude.{◌≡◌};
ghost use Rattle.runs.specs.Snapshots.{kept};

use super::{Lines, Snapshot};
use windows::window::Window;

impl Lines {
    /// The windows as they are now.
    pub fn snapshot(&self) -> Snapshot
        ensures { kept result ≡ self.now.windows.items }
    {
        let count = self.windows.len();
        let mut windows = [Window::single(0); 64];
        windows[..count].copy_from_slice(&self.windows);
        Snapshot { windows, count }
    }

    /// Brings the windows of a snapshot back.
    pub fn bring_back(&mut self, snapshot: &Snapshot)
        ensures { self.new.windows.items ≡ kept snapshot.now }
    {
        self.windows.clear();
        // One by one into the room that is reserved: `extend_from_slice` brings in the growing of a `Vec`, and an archive for C then
        // wants `rattle_realloc` from outside.
        for window in &snapshot.windows[..snapshot.count] {
            self.windows.push_reserved(*window);
        }
    }
}
