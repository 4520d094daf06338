//! Load: a sheet set up from a number, a book and bytes.
ghost use Rattle.std.specs.Prelude.{◌≡◌, ◌<◌, IfErr, IfOk};
ghost use Rattle.law.specs.Law.{Called};
ghost use Rattle.law.specs.Sheets.{empty};
ghost use Rattle.sheet.specs.Answers.{numbered};
ghost use Rattle.tables.specs.Views.{model};
ghost use Rattle.stored.specs.Loads.{Filled, Outcome, UnderLaw, bad_length, chain, loads, opened, told};
ghost use Rattle.stored.specs.Records.{call_of, record_at, records};

use crate::fault::{LoadFault, Placed};
use crate::item::{Item, head_fits, read_item, record_at};
use books::book::Book;
use law::calls::Refusal;
use sheet::sheet::Sheet;
use std::alloc::{AllocError, Global};
use tables::room::Room;

/// What a load leaves: without a fault the sheet that was stored; with one, a fresh sheet.
// No `Result`: a refused load leaves a sheet too, beside its fault.
#[derive(Drop)]
pub struct Loaded<B: Book> {
    pub sheet: Sheet<B>,
    pub fault: Option<LoadFault>,
}

/// Whether no stored sheet has so many bytes.
pub fn badly_long(len: usize) -> bool
    ensures { result ≡ bad_length len }
{
    len == 0 || 2048 < len || len % 8 != 0
}

/// What the record at an index of the chain tells, where `left` more records may be taken.
fn open_record(bytes: &[u8], left: usize, at: u8) -> Result<Item, LoadFault>
    ensures { result ≡ opened bytes.now left at }
{
    if left == 0 || bytes.len() / 8 <= usize::from(at) {
        return Err(LoadFault::Chain(at));
    }
    read_item(record_at(bytes, at)).ok_or(LoadFault::Record(at))
}

/// Adds a line or a rule.
fn take_item<B: Book>(sheet: &mut Sheet<B>, item: Item) -> Result<u32, Refusal>
    ensures called { Called (B.meaning sheet.old.book) sheet.old.number (model sheet.old.tables) (call_of item) (model sheet.new.tables) (numbered result) }
    ensures number { sheet.new.number ≡ sheet.old.number }
    ensures book { sheet.new.book ≡ sheet.old.book }
{
    match item {
        Item::Line { lo, hi } => sheet.line(lo, hi),
        Item::Rule(rule) => sheet.rule(rule.kind, rule.a, rule.b, rule.c),
    }
}

/// The same, for the record at an index, which goes with a refusal.
fn take_at<B: Book>(sheet: &mut Sheet<B>, item: Item, at: u8) -> Result<u32, Placed>
    ensures called { Called (B.meaning sheet.old.book) sheet.old.number (model sheet.old.tables) (call_of item) (model sheet.new.tables) (told result) }
    ensures placed { IfErr result (λ p. p.at ≡ at) }
    ensures number { sheet.new.number ≡ sheet.old.number }
    ensures book { sheet.new.book ≡ sheet.old.book }
{
    take_item(sheet, item).map_err(|why| Placed { why, at })
}

/// Takes the records of the chain, from its first index on.
fn take_chain<B: Book>(sheet: &mut Sheet<B>, bytes: &[u8]) -> Result<(), LoadFault>
    requires fresh { model sheet.old.tables ≡ empty }
    requires head { 0 < records bytes.now }
    ensures filled { Filled (B.meaning sheet.old.book) sheet.old.number (model sheet.new.tables) result (chain (B.meaning sheet.old.book) sheet.old.number bytes.now) }
    ensures number { sheet.new.number ≡ sheet.old.number }
    ensures book { sheet.new.book ≡ sheet.old.book }
{
    let mut left = bytes.len() / 8 - 1;
    // By hand: there is no list to go over, the next index stands in the record.
    let mut at = record_at(bytes, 0)[1];
    while at != 0 {
        let item = open_record(bytes, left, at)?;
        take_at(sheet, item, at)?;
        at = record_at(bytes, at)[1];
        left -= 1;
    }
    Ok(())
}

/// Fills an empty sheet from the bytes: their length, their head, then the chain.
fn fill<B: Book>(sheet: &mut Sheet<B>, bytes: &[u8]) -> Result<(), LoadFault>
    requires { model sheet.old.tables ≡ empty }
    ensures filled { Filled (B.meaning sheet.old.book) sheet.old.number (model sheet.new.tables) result (loads (B.meaning sheet.old.book) sheet.old.number B.DRIVE (B.mode sheet.old.book) bytes.now) }
    ensures number { sheet.new.number ≡ sheet.old.number }
    ensures book { sheet.new.book ≡ sheet.old.book }
{
    if badly_long(bytes.len()) {
        return Err(LoadFault::Length);
    }
    if !head_fits(sheet.book(), record_at(bytes, 0)) {
        return Err(LoadFault::Head);
    }
    take_chain(sheet, bytes)
}

// Beside `load_in`, which cannot want memory: callers who bring no room have this one.

/// Sets a sheet up from stored bytes, with this number and this book. A refused load leaves a fresh sheet. Memory is wanted
/// for setting sheets up alone.
pub fn load<B: Book + Copy + Drop>(
    heap: Global,
    number: u32,
    book: B,
    bytes: &[u8],
) -> Result<Loaded<B>, AllocError>
    ensures loaded { IfOk result (λ l. Outcome (B.meaning book) number (model l.sheet.tables) l.fault (loads (B.meaning book) number B.DRIVE (B.mode book) bytes.now)) }
    ensures number { IfOk result (λ l. l.sheet.number ≡ number) }
    ensures book { IfOk result (λ l. l.sheet.book ≡ book) }
{
    let room = Room::reserve(heap)?;
    Ok(load_in(room, number, book, bytes))
}

/// The same in room that was reserved for the sheet. The law holds of the sheet, with the lines and rules taken as its calls.
pub fn load_in<B: Book>(room: Room, number: u32, book: B, bytes: &[u8]) -> Loaded<B>
    ensures loaded { Outcome (B.meaning book) number (model result.sheet.tables) result.fault (loads (B.meaning book) number B.DRIVE (B.mode book) bytes.now) }
    ensures law { UnderLaw (B.meaning book) number (model result.sheet.tables) (loads (B.meaning book) number B.DRIVE (B.mode book) bytes.now) }
    ensures number { result.sheet.number ≡ number }
    ensures book { result.sheet.book ≡ book }
{
    let mut sheet = Sheet::in_room(room, number, book);
    let fault = fill(&mut sheet, bytes).err();
    if fault.is_some() {
        let (room, book) = sheet.into_parts();
        sheet = Sheet::in_room(room, number, book);
    }
    Loaded { sheet, fault }
}
