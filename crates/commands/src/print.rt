//! What the desk prints.
ghost use Rattle.std.specs.Prelude.{◌≡◌, ◌<◌, ◌++◌, IfOk, OnOk, string_bytes};
ghost use Rattle.commands.specs.Prints.{ExactAnswer, glyph, hex_text, printed};

use crate::reply::Reply;
use std::alloc::{AllocError, Global};
use std::fmt;
use windows::window::Window;

/// The commands.
const HELP: &str = "\
sheet N counter
sheet N half M
use N
line LO HI
rule KIND A B C
pinch L LO HI
settle N
open
keep T
strike T
window L
state
lines
store
load N counter HEX
load N half M HEX
value L
help
end
";

/// An answer: one line, or several.
#[derive(Drop)]
pub enum Answer {
    Short(Reply),
    /// The windows of all lines.
    Lines(Vec<Window>),
    /// The bytes of a stored sheet.
    Stored(Vec<u8>),
    Help,
}

impl fmt::Display for Answer {
    ghost use Rattle.std.specs.Prelude.{Some};

    ghost output = { λ answer. Some (printed answer) };

    fn fmt<W: fmt::Write>(&self, f: &mut fmt::Formatter<W>) -> fmt::Result {
        match self {
            Answer::Short(reply) => write!(f, "{reply}"),
            Answer::Lines(windows) => writeln!(f, "{}end", Rows(windows.as_slice())),
            Answer::Stored(bytes) => {
                writeln!(f, "stored {}\n{}", bytes.len(), Hex(bytes.as_slice()))
            }
            Answer::Help => f.write_str(HELP),
        }
    }
}

/// The lines of windows, numbered from 1 on.
#[derive(Clone, Copy)]
struct Rows<'a>(&'a [Window]);

impl fmt::Display for Rows<'_> {
    ghost use Rattle.std.specs.Prelude.{Some, map};
    ghost use Rattle.windows.specs.Windows.{span};
    ghost use Rattle.commands.specs.Prints.{rows};

    ghost output = { λ r. Some (rows 1 (map span r.0.now)) };

    fn fmt<W: fmt::Write>(&self, f: &mut fmt::Formatter<W>) -> fmt::Result {
        for (i, window) in self.0.iter().enumerate() {
            writeln!(f, "{} {} {}", i + 1, window.lo(), window.hi())?;
        }
        Ok(())
    }
}

/// Bytes in hexadecimal.
#[derive(Clone, Copy)]
struct Hex<'a>(&'a [u8]);

impl fmt::Display for Hex<'_> {
    ghost use Rattle.std.specs.Prelude.{Some};
    ghost use Rattle.commands.specs.Prints.{hex_text};

    ghost output = { λ hex. Some (hex_text hex.0.now) };

    fn fmt<W: fmt::Write>(&self, f: &mut fmt::Formatter<W>) -> fmt::Result {
        for &byte in self.0 {
            write!(f, "{byte:02x}")?;
        }
        Ok(())
    }
}

/// A hexadecimal digit.
fn digit(n: u8) -> char
    requires { n < 16 }
    ensures { result ≡ glyph n }
{
    char::from(if n < 10 { b'0' + n } else { b'a' + (n - 10) })
}

/// Writes bytes in hexadecimal at the end of a text.
// Digit by digit, and not by `Hex`: what a format goes through for each byte made a store take four times as long.
fn push_hex(text: &mut String, bytes: &[u8]) -> Result<(), AllocError>
    ensures { OnOk result (string_bytes text.new ≡ string_bytes text.old ++ hex_text bytes.now) }
{
    for &byte in bytes {
        text.push(digit(byte / 16))?;
        text.push(digit(byte % 16))?;
    }
    Ok(())
}

/// How many bytes are reserved for a text at first. Most answers have fewer.
const ROOM: usize = 64;

/// What is printed for an answer. The ends that it tells are exact.
pub fn print_answer(heap: Global, answer: &Answer) -> Result<String, AllocError>
    ensures text { IfOk result (λ s. string_bytes s ≡ printed answer.now) }
    ensures exact { ExactAnswer answer.now }
{
    // With room at once: a text that begins with none wants memory several times for a line.
    let mut text = String::with_capacity(heap, ROOM)?;
    match answer {
        Answer::Stored(bytes) => {
            writeln!(text, "stored {}", bytes.len())?;
            push_hex(&mut text, bytes.as_slice())?;
            text.push('\n')?;
        }
        _ => {
            write!(text, "{answer}")?;
        }
    }
    Ok(text)
}
