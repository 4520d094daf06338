//! Tables of stored files, and what a load or a store answers to each.
#![tactic(auto)]

mod bare;
#[cfg(test)]
mod tests;
