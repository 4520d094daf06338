//! The tables of a sheet: its state, lines, rules and tries. Their room is reserved before they are set up.
ghost use Rattle.std.specs.Prelude.{◌≤◌, vec_len, vec_capacity};
ghost use Rattle.tables.specs.Marks.{Nested};

use crate::mark::Mark;
use law::calls::State;
use runs::lines::Lines;
use runs::rules::Rules;

mod edits;
mod faults;
mod reads;
mod tries;

/// What a sheet holds besides its book and its number.
#[derive(Drop)]
pub struct Tables {
    state: State,
    lines: Lines,
    rules: Rules,
    tries: Vec<Mark>,
    ghost few_tries: { vec_len tries ≤ 8 },
    ghost room_tries: { 8 ≤ vec_capacity tries },
    ghost nested: { Nested (vec_len rules.items) tries.items },
}
