//! What a line of the desk means, and what the desk prints: commands read from bytes, replies written as text. Nothing here
//! knows of a sheet.
#![tactic(auto)]

pub mod command;
pub mod hex;
mod number;
pub mod parse;
pub mod print;
pub mod reply;
pub mod value;
mod verb;
mod words;
