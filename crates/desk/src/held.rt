//! A ticket in hand.
use sheet::ticket::Ticket;

/// A ticket in hand, with its place among all tickets that the desk answered.
pub(crate) struct Held {
    pub(crate) place: u32,
    pub(crate) ticket: Ticket,
}
