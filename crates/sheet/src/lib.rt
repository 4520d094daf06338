//! The sheet: lines, rules and tries over any book, seven calls that change it, and the law that holds after every list of them.
#![tactic(auto)]

pub mod sheet;
pub mod theorems;
pub mod ticket;
