//! trace: from a stored sheet to its report, over memory that the caller brings.
ghost use Rattle.std.specs.Prelude.{◌≡◌, ◌≤◌, length, slice_index, IfOk, OnErr};
ghost use Rattle.report.specs.Concluding.{Concludes};
ghost use Rattle.report.specs.Picks.{Picks};
ghost use Rattle.report.specs.Traces.{Comes, Reported, TraceIn, TraceOf};
ghost use Rattle.tables.specs.Views.{model};
ghost use Rattle.stored.specs.Loads.{loads};

use crate::refused::RefusedAt;
use crate::text::{REPORT_MAX, write_report};
use books::any_book::AnyBook;
use books::book::Book;
use books::counter::CounterBook;
use books::half_book::HalfBook;
use runs::settled::Settled;
use std::alloc::{AllocError, Global};
use std::convert::Infallible;
use stored::fault::LoadFault;
use stored::load::{Loaded, badly_long, load_in};
use tables::room::Room;

/// How many narrowings a settle may make.
const ALLOWANCE: u32 = 100000;

/// What comes of a load, once the sheet is settled.
fn conclude<B: Book>(loaded: &mut Loaded<B>) -> Result<Settled, RefusedAt>
    ensures { Concludes (B.meaning loaded.old.sheet.book) loaded.old.sheet.number (model loaded.old.sheet.tables) loaded.old.fault result (model loaded.new.sheet.tables).core.windows }
{
    match loaded.fault {
        Some(fault) => Err(fault.into()),
        None => Ok(loaded.sheet.settle(ALLOWANCE)?),
    }
}

/// Loads with this book in reserved room, settles and writes the report.
fn trace_by<B: Book + Drop>(room: Room, book: B, input: &[u8], output: &mut [u8]) -> usize
    requires { 1024 ≤ length output.old }
    ensures { Reported (Comes (B.meaning book) (loads (B.meaning book) 0 B.DRIVE (B.mode book) input.now)) output.old output.new result }
{
    let mut loaded = load_in(room, 0, book, input);
    let outcome = conclude(&mut loaded);
    write_report(outcome, loaded.sheet.all_windows(), output)
}

/// The byte at a place, 0 where there is none.
fn byte_at(bytes: &[u8], place: usize) -> u8
    ensures { result ≡ slice_index bytes.now place }
{
    bytes.get(place).copied().unwrap_or(0)
}

/// The book that the head of a stored sheet names, or why none fits.
fn book_for(input: &[u8]) -> Result<AnyBook, LoadFault>
    ensures { Picks input.now result }
{
    match (byte_at(input, 2), byte_at(input, 3)) {
        (0, mode) => {
            if let Ok(book) = HalfBook::new(mode) {
                return Ok(AnyBook::Half(book));
            }
        }
        (1, 0) => return Ok(AnyBook::Counter),
        _ => {}
    }
    Err(if badly_long(input.len()) {
        LoadFault::Length
    } else {
        LoadFault::Head
    })
}

/// Traces in the room that `reserve` brings. It is called only where a book fits.
fn trace_with<E, F: FnOnce() -> Result<Room, E> + Drop>(
    reserve: F,
    input: &[u8],
    output: &mut [u8],
) -> Result<usize, E>
    requires { F.IsAlwaysCallable reserve }
    ensures ok { IfOk result (TraceIn input.now output.old output.new) }
    ensures room { OnErr result (1024 ≤ length output.old) }
    ensures err { OnErr result (output.new ≡ output.old) }
{
    // 0 and not an error, as in `write_report`: C is handed it as it is.
    if output.len() < REPORT_MAX {
        return Ok(0);
    }
    let book = match book_for(input) {
        Ok(book) => book,
        Err(fault) => return Ok(write_report(Err(fault.into()), &[], output)),
    };
    let room = reserve()?;
    match book {
        AnyBook::Half(book) => Ok(trace_by(room, book, input, output)),
        AnyBook::Counter => Ok(trace_by(room, CounterBook, input, output)),
    }
}

// Three forms of one call: in room that is brought, with want of memory as an error, and with a number for C.

/// The same as `trace`, in room that was reserved for the sheet.
pub fn trace_in(room: Room, input: &[u8], output: &mut [u8]) -> usize
    ensures { TraceIn input.now output.old output.new result }
{
    let Ok(length) = trace_with(|| Ok::<Room, Infallible>(room), input, output);
    length
}

/// The same as `trace`, but where memory for the sheet is wanting it answers so, and writes nothing.
pub fn try_trace(heap: Global, input: &[u8], output: &mut [u8]) -> Result<usize, AllocError>
    ensures ok { IfOk result (TraceIn input.now output.old output.new) }
    ensures short { IfOk result (λ n. n ≤ 1024) }
    ensures room { OnErr result (1024 ≤ length output.old) }
    ensures err { OnErr result (output.new ≡ output.old) }
{
    trace_with(|| Room::reserve(heap), input, output)
}

/// Reads a stored sheet from `input`, settles it with an allowance of 100,000 narrowings, writes its report at the start of
/// `output` and answers the report's length; bytes after the report stay. With under 1,024 bytes of output it answers 0 and
/// writes nothing. Where memory for the sheet is wanting it answers the greatest `usize` and writes nothing.
pub fn trace(heap: Global, input: &[u8], output: &mut [u8]) -> usize
    ensures { TraceOf input.now output.old output.new result }
{
    try_trace(heap, input, output).unwrap_or(usize::MAX)
}
