//! What the open of a try puts aside.
use law::calls::State;
use runs::lines::Snapshot;

/// How the sheet was found by an open: its state, the windows of its lines, and how many rules it had. Rules are only ever
/// added while a try is open, so their number brings them back.
#[derive(Clone, Copy)]
pub struct Mark {
    pub state: State,
    pub lines: Snapshot,
    pub rules: usize,
}
