//! The commands of the desk, as plain data.

use std::error::Error;
use std::fmt;

/// Which book a sheet is over.
#[derive(Clone, Copy, Debug, PartialEq, Eq)]
pub enum BookName {
    Counter,
    /// The half book of the mode with this number.
    Half(u32),
}

/// A command. Its numbers are handed to the call as they are.
#[derive(Clone, Copy, Debug, PartialEq, Eq)]
pub enum Command {
    Sheet { number: u32, book: BookName },
    Use(u32),
    Line { lo: u32, hi: u32 },
    Rule { kind: u32, a: u32, b: u32, c: u32 },
    Pinch { line: u32, lo: u32, hi: u32 },
    Settle(u32),
    Open,
    Keep(u32),
    Strike(u32),
    Window(u32),
    State,
    Lines,
    Store,
    /// The bytes to load are in the last word of the line.
    Load { number: u32, book: BookName },
    Value(u32),
    Help,
}

/// Why a line cannot be read.
#[derive(Clone, Copy, Debug, PartialEq, Eq)]
pub enum Unreadable {
    /// The first word names no command.
    NoCommand,
    /// A word is wanting.
    Missing,
    /// There are more words than the command takes.
    TooMany,
    /// A word has another byte than a decimal digit where a number is wanted.
    NoNumber,
    /// A number is above 4294967295.
    TooLarge,
    /// The word names no book.
    NoBook,
    /// The word is no row of bytes in hexadecimal.
    NoHex,
}

impl fmt::Display for Unreadable {
    ghost use Rattle.std.specs.Prelude.{Some};
    ghost use Rattle.commands.specs.Replies.{reason};

    ghost output = { λ why. Some (reason why) };

    fn fmt<W: fmt::Write>(&self, f: &mut fmt::Formatter<W>) -> fmt::Result {
        f.write_str(match self {
            Unreadable::NoCommand => "no such command",
            Unreadable::Missing => "a word is missing",
            Unreadable::TooMany => "too many words",
            Unreadable::NoNumber => "not a number",
            Unreadable::TooLarge => "the number is too large",
            Unreadable::NoBook => "no such book",
            Unreadable::NoHex => "not bytes in hexadecimal",
        })
    }
}

impl Error for Unreadable {}
