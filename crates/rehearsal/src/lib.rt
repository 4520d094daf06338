//! Tests of the sheet on worked cases, and clients that hold tickets.
#![tactic(auto)]

#[cfg(test)]
mod tests;
pub mod tickets;
