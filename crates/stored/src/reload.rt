//! The round trip: a sheet stored and loaded back.
ghost use Rattle.std.specs.Prelude.{◌≡◌, length, IfOk};
ghost use Rattle.std.specs.Result.{result_err};
ghost use Rattle.law.specs.Histories.{History};
ghost use Rattle.law.specs.Steps.{Reached};
ghost use Rattle.stored.specs.Loads.{LedTo};
ghost use Rattle.stored.specs.Stores.{ComesBack, SameAgain, buffer, store_fault_of, stores};
ghost use Rattle.tables.specs.Views.{model};

use crate::fault::{ReloadFault, StoreFault};
use crate::load::{Loaded, load_in};
use crate::store::store;
use books::book::Book;
use sheet::sheet::Sheet;
use std::alloc::Global;
use tables::room::Room;

/// Loads what was stored of a sheet, with this number and the sheet's book, in this room.
fn load_again<B: Book + Copy>(room: Room, number: u32, sheet: &Sheet<B>, bytes: &[u8]) -> Loaded<B>
    requires { (h : History) → Reached (B.meaning sheet.now.book) sheet.now.number h (model sheet.now.tables)
        → ComesBack (B.meaning sheet.now.book) number B.DRIVE (B.mode sheet.now.book) (model sheet.now.tables).core bytes.now }
    ensures same { SameAgain (B.meaning sheet.now.book) sheet.now.number (model sheet.now.tables) (model result.sheet.tables) result.fault }
    ensures led { LedTo (B.meaning sheet.now.book) number (model result.sheet.tables) }
    ensures number { result.sheet.number ≡ number }
    ensures book { result.sheet.book ≡ sheet.now.book }
{
    load_in(room, number, *sheet.book(), bytes)
}

// Beside `reload_in`, which cannot want memory, as `load` beside `load_in`.

/// Stores a sheet into the buffer, and loads it back with the same number and book: the same lines, with their windows as they
/// are now, and the same rules, unsettled, whatever calls led to the sheet.
pub fn reload<B: Book + Copy>(
    heap: Global,
    sheet: &Sheet<B>,
    out: &mut [u8],
) -> Result<Loaded<B>, ReloadFault>
    ensures same { IfOk result (λ l. SameAgain (B.meaning sheet.now.book) sheet.now.number (model sheet.now.tables) (model l.sheet.tables) l.fault) }
    ensures number { IfOk result (λ l. l.sheet.number ≡ sheet.now.number) }
    ensures book { IfOk result (λ l. l.sheet.book ≡ sheet.now.book) }
    ensures fault { store_fault_of result ≡ result_err (stores (model sheet.now.tables) (length out.old)) }
    ensures buffer { out.new ≡ buffer B.DRIVE (B.mode sheet.now.book) (model sheet.now.tables) out.old (stores (model sheet.now.tables) (length out.old)) }
{
    let n = store(sheet, out)?;
    let room = Room::reserve(heap)?;
    Ok(load_again(room, sheet.number(), sheet, &out[..n]))
}

/// Stores a sheet into the buffer, and loads it back in this room, with this number and the same book: the same lines, with
/// their windows as they are now, and the same rules, unsettled, whatever calls led to the sheet. A list of calls leads to the
/// new sheet too, and the law holds of it.
pub fn reload_in<B: Book + Copy>(
    room: Room,
    number: u32,
    sheet: &Sheet<B>,
    out: &mut [u8],
) -> Result<Loaded<B>, StoreFault>
    ensures same { IfOk result (λ l. SameAgain (B.meaning sheet.now.book) sheet.now.number (model sheet.now.tables) (model l.sheet.tables) l.fault) }
    ensures led { IfOk result (λ l. LedTo (B.meaning sheet.now.book) number (model l.sheet.tables)) }
    ensures number { IfOk result (λ l. l.sheet.number ≡ number) }
    ensures book { IfOk result (λ l. l.sheet.book ≡ sheet.now.book) }
    ensures fault { result_err result ≡ result_err (stores (model sheet.now.tables) (length out.old)) }
    ensures buffer { out.new ≡ buffer B.DRIVE (B.mode sheet.now.book) (model sheet.now.tables) out.old (stores (model sheet.now.tables) (length out.old)) }
{
    let n = store(sheet, out)?;
    Ok(load_again(room, number, sheet, &out[..n]))
}
