//! The states of a sheet, and which one follows which event.
ghost use Rattle.std.specs.Prelude.{◌≡◌};
ghost use Rattle.tables.specs.States.{follows};

use law::calls::{Refusal, State};

/// What happens to a sheet, as far as its state goes.
#[derive(Debug, Clone, Copy, PartialEq, Eq)]
pub enum Event {
    /// A line, a rule or a pinch.
    Change,
    /// A settle, until its ending is known.
    Run,
    /// An open or a keep.
    Hold,
    /// A strike, which brings this state back.
    Restore(State),
}

// One match on state and event, with every case: a rule of the project.

/// The state after the event; a barren sheet takes nothing but a strike.
pub(crate) fn next_state(state: State, event: Event) -> Result<State, Refusal>
    ensures { result ≡ follows state event }
{
    match (state, event) {
        (State::Unsettled, Event::Change) => Ok(State::Unsettled),
        (State::Unsettled, Event::Run) => Ok(State::Unsettled),
        (State::Unsettled, Event::Hold) => Ok(State::Unsettled),
        (State::Unsettled, Event::Restore(found)) => Ok(found),
        (State::Standing, Event::Change) => Ok(State::Unsettled),
        (State::Standing, Event::Run) => Ok(State::Unsettled),
        (State::Standing, Event::Hold) => Ok(State::Standing),
        (State::Standing, Event::Restore(found)) => Ok(found),
        (State::Barren, Event::Change) => Err(Refusal::IsBarren),
        (State::Barren, Event::Run) => Err(Refusal::IsBarren),
        (State::Barren, Event::Hold) => Err(Refusal::IsBarren),
        (State::Barren, Event::Restore(found)) => Ok(found),
    }
}
