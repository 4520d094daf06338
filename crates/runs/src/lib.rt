//! The run of settle: rules are tried in rounds on the windows of lines, until no rule closes them further.
#![tactic(auto)]

pub mod lines;
mod naming;
pub mod place;
mod rule_set;
pub mod rules;
mod run;
pub mod settle;
pub mod settled;
mod wake;
