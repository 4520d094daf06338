//! The desk: sheets by their numbers, the last of which is the present one, and the tickets of all open tries in hand.
use crate::tended::Tended;

mod plays;
mod sheets;
mod tickets;

/// The sheets with their tickets, and how many tickets were answered. The present sheet is the last.
pub struct Desk {
    folders: Vec<Tended>,
    answered: u32,
}
