//! The sheet: a book, a number, and the tables of lines, rules and tries.
use books::book::Book;
use tables::tables::Tables;

mod calls;
mod inner;
mod reads;
pub mod replay;

/// A sheet over a book. Its parts are reached by its calls alone.
#[derive(Drop)]
pub struct Sheet<B: Book> {
    book: B,
    number: u32,
    tables: Tables,
}
