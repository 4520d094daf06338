//! The desk: sheets by their numbers, the present one among them, and the tickets of all open tries in hand.
#![tactic(auto)]

pub mod desk;
mod folder;
mod held;
mod no_effect;
mod tended;
