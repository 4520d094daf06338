//! Stored sheets: a sheet set up from bytes, and a sheet written as bytes.
#![tactic(auto)]

pub mod fault;
pub mod item;
pub mod load;
pub mod reload;
pub mod store;
pub mod theorems;
