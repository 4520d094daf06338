//! The narrowings of both books for C and Rust, for the benchmark.
#![tactic(auto)]

pub mod ends;
mod tell;

ghost use Rattle.std.specs.Prelude.{◌<◌, ◌≡◌};
ghost use Rattle.half.specs.Roundings.{mode_number};
ghost use Rattle.half.specs.declared.mode.Mode.{Mode as AnyMode};
ghost use Rattle.books.specs.CounterBooks.{counter_meaning};
ghost use Rattle.books.specs.HalfBooks.{half_meaning};
ghost use Rattle.bench_export.specs.Told.{Told};

use books::counter::CounterBook;
use books::half_book::HalfBook;
use ends::Ends;
use tell::narrow_ends;

/// The answer to a mode that there is none of: a number, since C takes it as it is.
const NO_MODE: u32 = 3;

/// Closes three windows, each from the lesser to the greater of its ends, by a rule of this kind in the counter drive, and
/// leaves the ends of the closed windows. Answers 2; 1 where there is no choice and 0 where the windows or the kind are unfit,
/// with the ends as they were.
#[unsafe(no_mangle)]
pub extern "C" fn narrow_counter(kind: u32, ends: &mut Ends) -> u32
    ensures { Told counter_meaning kind ends.old ends.new result }
{
    narrow_ends(&CounterBook, kind, ends)
}

/// The same in the half drive, with a mode 0, 1 or 2; 3 for any other mode, with the ends as they were.
#[unsafe(no_mangle)]
pub extern "C" fn narrow_half(mode: u8, kind: u32, ends: &mut Ends) -> u32
    ensures told { (m : AnyMode) → mode_number m ≡ mode → Told (half_meaning m) kind ends.old ends.new result }
    ensures none { 2 < mode → (result ≡ 3) × (ends.new ≡ ends.old) }
{
    match HalfBook::new(mode) {
        Ok(book) => narrow_ends(&book, kind, ends),
        Err(_) => NO_MODE,
    }
}
