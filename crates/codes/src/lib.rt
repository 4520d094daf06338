//! Drive arithmetic on codes: the operations that rules are made of, each with its defined result for every two
//! numbers of 32 bits and with the law that its result never falls when neither argument falls.
#![tactic(auto)]

pub mod counter;
pub mod later;
pub mod operation;
pub mod swapped;
