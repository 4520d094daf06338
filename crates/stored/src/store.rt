//! Store: a sheet written as bytes.
ghost use Rattle.std.specs.Prelude.{◌≡◌, ◌+◌, ◌-◌, ◌*◌, ◌<◌, ◌≤◌, map, length};
ghost use Rattle.tables.specs.Views.{model};
ghost use Rattle.stored.specs.Records.{write};
ghost use Rattle.stored.specs.Stores.{Back, BackUnderAny, RoundTrip, RoundTripUnderAny, buffer, file, items, items_of, next_index, over, put_at, size, stores};
ghost use Rattle.windows.specs.Windows.{span};

use crate::fault::StoreFault;
use crate::item::Item;
use books::book::Book;
use law::calls::{Rule, State};
use sheet::sheet::Sheet;
use windows::window::Window;

/// The record of an item, with the index of the next.
fn record_of(item: Item, next: u8) -> [u8; 8]
    ensures { result ≡ write item next }
{
    match item {
        Item::Line { lo, hi } => {
            let [lo_low, lo_high, ..] = lo.to_le_bytes();
            let [hi_low, hi_high, ..] = hi.to_le_bytes();
            [1, next, lo_low, lo_high, hi_low, hi_high, 0, 0]
        }
        Item::Rule(rule) => {
            let [kind, ..] = rule.kind.to_le_bytes();
            let [a, ..] = rule.a.to_le_bytes();
            let [b, ..] = rule.b.to_le_bytes();
            let [c, ..] = rule.c.to_le_bytes();
            [kind, next, a, b, c, 0, 0, 0]
        }
    }
}

/// The index `i` where `left` items are still to come, else 0.
fn index_if(i: usize, left: usize) -> u8
    requires { 0 < left → i < 256 }
    ensures { result ≡ next_index i left }
{
    if left == 0 { 0 } else { i as u8 }
}

/// Writes a record at a place of the buffer.
fn put_record(out: &mut [u8], at: usize, bytes: [u8; 8])
    requires { at + 8 ≤ length out.old }
    ensures { out.new ≡ put_at at bytes out.old }
{
    out[at..at + 8].copy_from_slice(&bytes);
}

/// Writes the record of item `k` out of `count`.
// By its place: std has no `chunks_exact_mut`, and of a slice written through `as_chunks_mut` a proof knows the length alone.
fn put_item(out: &mut [u8], k: usize, count: usize, item: Item)
    requires room { 8 * (1 + count) ≤ length out.old }
    requires there { k < count }
    requires few { count < 256 }
    ensures { out.new ≡ put_at (8 * (k + 1)) (write item (next_index (k + 2) (count - (k + 1)))) out.old }
{
    let next = index_if(k + 2, count - (k + 1));
    put_record(out, 8 * (k + 1), record_of(item, next));
}

/// Writes the whole file.
fn put_file(out: &mut [u8], drive: u8, mode: u8, lines: &[Window], rules: &[Rule])
    requires room { 8 * (1 + (length lines.now + length rules.now)) ≤ length out.old }
    requires few { length lines.now + length rules.now < 256 }
    ensures { out.new ≡ over (file drive mode (items_of (map span lines.now) rules.now)) out.old }
{
    let count = lines.len() + rules.len();
    put_record(out, 0, [1, index_if(1, count), drive, mode, 0, 0, 0, 0]);
    for (k, window) in lines.iter().enumerate() {
        put_item(out, k, count, Item::from(*window));
    }
    for (k, rule) in rules.iter().enumerate() {
        put_item(out, lines.len() + k, count, Item::Rule(*rule));
    }
}

/// How many bytes the file of a sheet has.
fn file_size<B: Book>(sheet: &Sheet<B>) -> usize
    ensures { result ≡ size (model sheet.now.tables).core }
{
    8 * (1 + (sheet.lines() as usize + sheet.rules() as usize))
}

/// Writes the file of a sheet, and answers its size.
fn put_sheet<B: Book>(sheet: &Sheet<B>, out: &mut [u8]) -> usize
    requires { size (model sheet.now.tables).core ≤ length out.old }
    ensures size { result ≡ size (model sheet.now.tables).core }
    ensures file { out.new ≡ over (file B.DRIVE (B.mode sheet.now.book) (items (model sheet.now.tables).core)) out.old }
    ensures back { Back (B.meaning sheet.now.book) sheet.now.number B.DRIVE (B.mode sheet.now.book) (model sheet.now.tables) out.new result }
    ensures any { BackUnderAny (B.meaning sheet.now.book) sheet.now.number B.DRIVE (B.mode sheet.now.book) (model sheet.now.tables) out.new result }
{
    let windows = sheet.all_windows();
    let rules = sheet.all_rules();
    put_file(out, B::DRIVE, sheet.book().mode_number(), windows, rules);
    file_size(sheet)
}

/// Writes a sheet into the buffer, and answers how many bytes it takes; the bytes after them stay. What was written comes back
/// by a load with any number and the same book.
pub fn store<B: Book>(sheet: &Sheet<B>, out: &mut [u8]) -> Result<usize, StoreFault>
    ensures answer { result ≡ stores (model sheet.now.tables) (length out.old) }
    ensures buffer { out.new ≡ buffer B.DRIVE (B.mode sheet.now.book) (model sheet.now.tables) out.old result }
    ensures back { RoundTrip (B.meaning sheet.now.book) sheet.now.number B.DRIVE (B.mode sheet.now.book) (model sheet.now.tables) out.new result }
    ensures any { RoundTripUnderAny (B.meaning sheet.now.book) sheet.now.number B.DRIVE (B.mode sheet.now.book) (model sheet.now.tables) out.new result }
{
    if 0 < sheet.tries() {
        return Err(StoreFault::TryOpen);
    }
    if sheet.state() == State::Barren {
        return Err(StoreFault::IsBarren);
    }
    if out.len() < file_size(sheet) {
        return Err(StoreFault::Short);
    }
    Ok(put_sheet(sheet, out))
}
