//! The lines of a report, added one after the other to a text.
//!
//! They are pushed and not written by an `impl Display`: a `write!` may answer an error wherever it likes, as far as `Display`
//! promises, and a report has to stand wherever there is room. They go straight into the caller's memory: by way of an
//! `ArrayString` that is copied there, and of a `Buffer` for each number, which are filled with zeros first, the trace of a head
//! that no book fits took twice as many instructions.
ghost use Rattle.std.specs.Prelude.{◌≡◌, ◌+◌, ◌≤◌, true, ◌++◌, map, length, decimal};
ghost use Rattle.report.specs.Adding.{Adds};
ghost use Rattle.report.specs.Report.{answer_row, printable, refused_row, report, rows, window_row};
ghost use Rattle.windows.specs.Windows.{span};

use crate::refused::RefusedAt;
use itoa::write_digits;
use runs::settled::Settled;
use windows::window::Window;

/// The text of a report, as it grows in memory that the caller brings: its bytes are the first `len`.
#[derive(Drop)]
pub(crate) struct Text<'a> {
    pub(crate) memory: &'a mut [u8],
    pub(crate) len: usize,
}

impl Text<'_> {
    /// Adds these characters.
    #[inline(always)]
    fn push_str(&mut self, s: &str)
        requires { self.old.len + length s.now ≤ length self.old.memory.now }
        ensures same_memory { self.new.memory.ghost_name ≡ self.old.memory.ghost_name }
        ensures adds { Adds self.old.memory.now self.old.len s.now self.new.memory.now self.new.len }
    {
        let end = self.len + s.len();
        self.memory[self.len..end].copy_from_slice(s.as_bytes());
        self.len = end;
    }
}

/// How many digits a number has.
fn digits(n: u32) -> usize
    ensures { result ≡ length (decimal n) }
{
    let mut count = 1;
    let mut left = n;
    while left >= 10 {
        left /= 10;
        count += 1;
    }
    count
}

/// Adds a number in decimal digits: no more than ten, five for a code, two for a line's number.
fn push_number(text: &mut Text<'_>, n: u32)
    requires { text.old.len + 10 ≤ length text.old.memory.now }
    ensures same_memory { text.new.memory.ghost_name ≡ text.old.memory.ghost_name }
    ensures adds { Adds text.old.memory.now text.old.len (decimal n) text.new.memory.now text.new.len }
    ensures number { text.new.len ≤ text.old.len + 10 }
    ensures code { n ≤ 65535 → text.new.len ≤ text.old.len + 5 }
    ensures line { n ≤ 64 → text.new.len ≤ text.old.len + 2 }
{
    let end = text.len + digits(n);
    write_digits(u64::from(n), text.memory, end);
    text.len = end;
}

/// Adds the line of a window: the number of its line, and its two ends.
fn push_window(text: &mut Text<'_>, number: u32, window: Window)
    requires number { number ≤ 64 }
    requires codes { window.hi ≤ 65535 }
    requires room { text.old.len + 20 ≤ length text.old.memory.now }
    ensures same_memory { text.new.memory.ghost_name ≡ text.old.memory.ghost_name }
    ensures line { Adds text.old.memory.now text.old.len (window_row number (span window)) text.new.memory.now text.new.len }
    ensures short { text.new.len ≤ text.old.len + 15 }
{
    push_number(text, number);
    text.push_str(" ");
    push_number(text, window.lo());
    text.push_str(" ");
    push_number(text, window.hi());
    text.push_str("\n");
}

/// Adds the lines of a sheet's windows.
fn push_windows(text: &mut Text<'_>, windows: &[Window])
    requires printable { printable (map span windows.now) ≡ true }
    requires room { text.old.len + 1000 ≤ length text.old.memory.now }
    ensures same_memory { text.new.memory.ghost_name ≡ text.old.memory.ghost_name }
    ensures lines { Adds text.old.memory.now text.old.len (rows 1 (map span windows.now)) text.new.memory.now text.new.len }
    ensures short { text.new.len ≤ text.old.len + 960 }
{
    for (i, window) in windows.iter().enumerate() {
        push_window(text, i as u32 + 1, *window);
    }
}

/// Adds the report of an answer of settle: its word and its number, and the lines of the windows.
// In each place by itself, where the word's length is known: a copy of a length that is not is `memmove`, which an archive for C
// then wants from outside.
#[inline(always)]
fn push_answer(text: &mut Text<'_>, word: &str, number: u32, windows: &[Window])
    requires word { length word.now ≤ 12 }
    requires printable { printable (map span windows.now) ≡ true }
    requires room { text.old.len + 1024 ≤ length text.old.memory.now }
    ensures same_memory { text.new.memory.ghost_name ≡ text.old.memory.ghost_name }
    ensures answer { Adds text.old.memory.now text.old.len (answer_row word.now number ++ rows 1 (map span windows.now)) text.new.memory.now text.new.len }
    ensures short { text.new.len ≤ text.old.len + 1024 }
{
    text.push_str(word);
    text.push_str(" ");
    push_number(text, number);
    text.push_str("\n");
    push_windows(text, windows);
}

/// Adds the report of a refusal.
fn push_refused(text: &mut Text<'_>, refused: RefusedAt)
    requires { text.old.len + 33 ≤ length text.old.memory.now }
    ensures same_memory { text.new.memory.ghost_name ≡ text.old.memory.ghost_name }
    ensures row { Adds text.old.memory.now text.old.len (refused_row refused) text.new.memory.now text.new.len }
    ensures short { text.new.len ≤ text.old.len + 33 }
{
    text.push_str("refused ");
    push_number(text, u32::from(refused.number));
    text.push_str(" at ");
    push_number(text, u32::from(refused.at));
    text.push_str("\n");
}

/// Adds the report.
pub(crate) fn push_report(
    text: &mut Text<'_>,
    outcome: Result<Settled, RefusedAt>,
    windows: &[Window],
)
    requires printable { printable (map span windows.now) ≡ true }
    requires room { text.old.len + 1024 ≤ length text.old.memory.now }
    ensures same_memory { text.new.memory.ghost_name ≡ text.old.memory.ghost_name }
    ensures report { Adds text.old.memory.now text.old.len (report outcome (map span windows.now)) text.new.memory.now text.new.len }
    ensures short { text.new.len ≤ text.old.len + 1024 }
{
    match outcome {
        Ok(Settled::Standing(count)) => push_answer(text, "standing", count, windows),
        Ok(Settled::Spent(allowance)) => push_answer(text, "spent", allowance, windows),
        Ok(Settled::Barren(rule)) => push_answer(text, "barren", rule, windows),
        Err(refused) => push_refused(text, refused),
    }
}

/// Whether the windows are as a sheet can have them: no more than 64, and no end above 65,535.
pub(crate) fn are_printable(windows: &[Window]) -> bool
    ensures { result ≡ printable (map span windows.now) }
{
    windows.len() <= 64 && windows.iter().all(|window| window.hi() <= 65535)
}
