//! Books: the interface to a set of rule kinds, what a narrowing promises, and the books of the counter drive and of the
//! half drive.
#![tactic(auto)]

pub mod any_book;
pub mod book;
mod close;
pub mod counter;
pub mod half_book;
mod kind;
pub mod narrowing;
pub mod theorems;
