//! The rules of a sheet.
ghost use Rattle.std.specs.Prelude.{◌≤◌, vec_len, vec_capacity};

use law::calls::Rule;

/// Up to 128 rules, in the order of their numbers. Their room is reserved.
#[derive(Drop)]
pub struct Rules {
    pub items: Vec<Rule>,
    ghost few: { vec_len items ≤ 128 },
    ghost room: { 128 ≤ vec_capacity items },
}
