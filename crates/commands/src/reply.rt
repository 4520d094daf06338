//! What the desk answers, as plain data, and as text.

use crate::command::Unreadable;
use crate::value::End;
use law::calls::State;
use std::fmt;

/// Why a command has no effect, besides the refusals of the calls.
#[derive(Clone, Copy, Debug, PartialEq, Eq)]
pub enum Fault {
    Unreadable(Unreadable),
    /// There is no sheet of this number.
    NoSheet(u32),
    /// No sheet is present.
    NonePresent,
    /// No ticket of this place is in hand.
    NoTicket(u32),
    /// The sheet of this number has an open try.
    TryOpen(u32),
    /// As many tickets were answered as can be counted.
    TooManyTickets,
}

/// The whole line: `error` and a short reason.
impl fmt::Display for Fault {
    ghost use Rattle.std.specs.Prelude.{Some};
    ghost use Rattle.commands.specs.Replies.{told};

    ghost output = { λ fault. Some (told fault) };

    fn fmt<W: fmt::Write>(&self, f: &mut fmt::Formatter<W>) -> fmt::Result {
        match self {
            Fault::Unreadable(why) => writeln!(f, "error {why}"),
            Fault::NoSheet(number) => writeln!(f, "error no sheet {number}"),
            Fault::NonePresent => writeln!(f, "error no sheet"),
            Fault::NoTicket(place) => writeln!(f, "error no ticket {place}"),
            Fault::TryOpen(number) => writeln!(f, "error open try on sheet {number}"),
            Fault::TooManyTickets => writeln!(f, "error no more tickets"),
        }
    }
}

/// A short answer.
#[derive(Clone, Copy, Debug, PartialEq, Eq)]
pub enum Reply {
    Sheet(u32),
    Line(u32),
    Rule(u32),
    Pinched,
    Standing(u32),
    Spent(u32),
    Barren(u32),
    Ticket(u32),
    Kept,
    Struck,
    Window { lo: u32, hi: u32 },
    State(State),
    // The numbers of refusals, and not the refusals: replies are public and print any number; an enum would take fewer.
    Refused(u8),
    /// A load was refused, at the record of this index.
    RefusedAt { why: u8, at: u8 },
    Value { lo: End, hi: End },
    Error(Fault),
}

/// The whole line.
impl fmt::Display for Reply {
    ghost use Rattle.std.specs.Prelude.{Some};
    ghost use Rattle.commands.specs.Replies.{shown};

    ghost output = { λ reply. Some (shown reply) };

    fn fmt<W: fmt::Write>(&self, f: &mut fmt::Formatter<W>) -> fmt::Result {
        match self {
            Reply::Sheet(number) => writeln!(f, "sheet {number}"),
            Reply::Line(number) => writeln!(f, "line {number}"),
            Reply::Rule(number) => writeln!(f, "rule {number}"),
            Reply::Pinched => writeln!(f, "pinched"),
            Reply::Standing(count) => writeln!(f, "standing {count}"),
            Reply::Spent(allowance) => writeln!(f, "spent {allowance}"),
            Reply::Barren(rule) => writeln!(f, "barren {rule}"),
            Reply::Ticket(place) => writeln!(f, "ticket {place}"),
            Reply::Kept => writeln!(f, "kept"),
            Reply::Struck => writeln!(f, "struck"),
            Reply::Window { lo, hi } => writeln!(f, "window {lo} {hi}"),
            Reply::State(State::Unsettled) => writeln!(f, "unsettled"),
            Reply::State(State::Standing) => writeln!(f, "standing"),
            Reply::State(State::Barren) => writeln!(f, "barren"),
            Reply::Refused(number) => writeln!(f, "refused {number}"),
            Reply::RefusedAt { why, at } => writeln!(f, "refused {why} at {at}"),
            Reply::Value { lo, hi } => writeln!(f, "value {lo} {hi}"),
            Reply::Error(fault) => write!(f, "{fault}"),
        }
    }
}
