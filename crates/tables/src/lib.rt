//! The tables of a sheet: its lines, rules and tries, the cases in which calls are turned away, and what accepted calls do.
#![tactic(auto)]

mod mark;
pub mod room;
pub mod state;
pub mod tables;
