//! The sheet in definitions: calls, answers, the run of settle, what is in force, and the law that holds after every list of calls.
#![tactic(auto)]

pub mod calls;
pub mod table;
pub mod theorems;
