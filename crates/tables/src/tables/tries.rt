//! What opening, keeping and striking a try do to the tables.
ghost use Rattle.std.specs.Prelude.{◌≡◌, ◌<◌, ◌≤◌, vec_len};
ghost use Rattle.tables.specs.Edits.{kept_as, opened_as, struck_as};
ghost use Rattle.tables.specs.Views.{core, found, model};

use super::Tables;
use crate::mark::Mark;
use crate::state::{Event, next_state};
use law::calls::State;

impl Tables {
    /// What the sheet holds, as a mark.
    fn mark(&self) -> Mark
        ensures core { found self.now.rules.items.items result ≡ core self.now }
        ensures rules { result.rules ≡ vec_len self.now.rules.items }
    {
        Mark {
            state: self.state,
            lines: self.lines.snapshot(),
            rules: self.rules.items.len(),
        }
    }

    /// Begins a try: puts aside what the sheet holds. Where 8 tries are open nothing changes.
    pub fn begin_try(&mut self)
        ensures begun { vec_len self.old.tries < 8 → model self.new ≡ opened_as (model self.old) }
        ensures full { 8 ≤ vec_len self.old.tries → self.new ≡ self.old }
    {
        if self.tries.len() < 8 {
            let mark = self.mark();
            self.tries.push_reserved(mark);
        }
    }

    /// Ends the innermost try; what was done in it stays.
    pub fn keep_try(&mut self)
        ensures { model self.new ≡ kept_as (model self.old) }
    {
        let _ = self.tries.pop();
    }

    /// Ends the innermost try, and brings back what its open found.
    pub fn strike_try(&mut self)
        ensures { model self.new ≡ struck_as (model self.old) }
    {
        if let Some(mark) = self.tries.pop() {
            self.lines.bring_back(&mark.lines);
            self.rules.items.truncate(mark.rules);
            self.state = after_strike(self.state, mark.state);
        }
    }
}

/// The state after a strike: the one that its open found, whatever it was before.
fn after_strike(state: State, found: State) -> State
    ensures { result ≡ found }
{
    next_state(state, Event::Restore(found)).unwrap_or(found)
}
