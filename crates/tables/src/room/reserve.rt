//! Reserving the memory of a sheet.
ghost use Rattle.std.specs.Prelude.{IfOk};
ghost use Rattle.tables.specs.Rooms.{Unused};

use super::Room;
use runs::lines::Lines;
use runs::rules::Rules;
use std::alloc::{AllocError, Global};

impl Room {
    /// Reserves the memory of one sheet, or answers that there is none.
    pub fn reserve(heap: Global) -> Result<Room, AllocError>
        ensures { IfOk result Unused }
    {
        Ok(Room {
            lines: Lines {
                windows: Vec::with_capacity(heap, 64)?,
            },
            rules: Rules {
                items: Vec::with_capacity(heap, 128)?,
            },
            tries: Vec::with_capacity(heap, 8)?,
        })
    }
}
