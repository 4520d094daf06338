//! The half drive's arithmetic: products and sums of binary16 codes from zero up, rounded in three directions, each
//! with its defined result for every two numbers of 32 bits.
#![tactic(auto)]

pub mod laws;
pub mod mode;
pub mod operation;
mod parts;
pub mod product;
mod rounding;
pub mod size;
pub mod sum;
pub mod unrounded;
