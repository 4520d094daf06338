//! The memory of a sheet, reserved before the sheet is set up: no later call can want memory.
ghost use Rattle.std.specs.Prelude.{◌≤◌, vec_capacity};

use crate::mark::Mark;
use runs::lines::Lines;
use runs::rules::Rules;

mod reserve;

/// Room for the 64 lines, 128 rules and 8 tries of one sheet. What it held before is of no matter.
#[derive(Drop)]
pub struct Room {
    pub(crate) lines: Lines,
    pub(crate) rules: Rules,
    pub(crate) tries: Vec<Mark>,
    ghost enough: { 8 ≤ vec_capacity tries },
}
