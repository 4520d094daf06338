//! The report: the text of an outcome, written into memory that the caller brings.
#![tactic(auto)]

mod lines;
pub mod refused;
pub mod text;
pub mod theorems;
pub mod trace;
