//! Sheets of either book set up and read.
ghost use Rattle.std.specs.Prelude.{◌≡◌, ◌≤◌, [], map, length, IfOk};
ghost use Rattle.desk.specs.Tended.{end_of, hand_of, model_of, number_of};
ghost use Rattle.law.specs.Sheets.{empty};
ghost use Rattle.stored.specs.Stores.{stores};
ghost use Rattle.tables.specs.Reads.{Read};
ghost use Rattle.windows.specs.Windows.{span};

use super::Tended;
use crate::folder::Folder;
use crate::folder::set_up::Filed;
use books::any_book::AnyBook;
use books::counter::CounterBook;
use commands::value::End;
use law::calls::{Refusal, State};
use std::alloc::{AllocError, Global};
use stored::fault::StoreFault;
use stored::store::store;
use windows::window::Window;

impl Tended {
    /// An empty sheet.
    pub(crate) fn new(heap: Global, number: u32, book: AnyBook) -> Result<Tended, AllocError>
        ensures number { IfOk result (λ t. number_of t ≡ number) }
        ensures empty { IfOk result (λ t. model_of t ≡ empty) }
        ensures hand { IfOk result (λ t. hand_of t ≡ []) }
    {
        match book {
            AnyBook::Counter => Folder::new(heap, number, CounterBook).map(Tended::Counter),
            AnyBook::Half(book) => Folder::new(heap, number, book).map(Tended::Half),
        }
    }

    /// The sheet that these bytes store, or an empty one where they are refused.
    pub(crate) fn load(
        heap: Global,
        number: u32,
        book: AnyBook,
        bytes: &[u8],
    ) -> Result<Filed<Tended>, AllocError>
        ensures number { IfOk result (λ l. number_of l.folder ≡ number) }
        ensures hand { IfOk result (λ l. hand_of l.folder ≡ []) }
    {
        match book {
            AnyBook::Counter => {
                let filed = Folder::load(heap, number, CounterBook, bytes)?;
                Ok(filed.map(Tended::Counter))
            }
            AnyBook::Half(book) => {
                let filed = Folder::load(heap, number, book, bytes)?;
                Ok(filed.map(Tended::Half))
            }
        }
    }

    /// The sheet's number.
    pub(crate) fn number(&self) -> u32
        ensures { result ≡ number_of self.now }
    {
        either!(self, folder => folder.sheet.number())
    }

    /// How many tries are open.
    pub(crate) fn tries(&self) -> u32
        ensures { result ≡ length (model_of self.now).saved }
    {
        either!(self, folder => folder.sheet.tries())
    }

    /// The window of a line.
    pub(crate) fn window(&self, line: u32) -> Result<Window, Refusal>
        ensures { Read (model_of self.now) line result }
    {
        either!(self, folder => folder.sheet.window(line))
    }

    /// The state.
    pub(crate) fn state(&self) -> State
        ensures { result ≡ (model_of self.now).core.state }
    {
        either!(self, folder => folder.sheet.state())
    }

    /// The windows of all lines.
    pub(crate) fn windows(&self) -> &[Window]
        ensures { map span result.now ≡ (model_of self.now).core.windows }
    {
        either!(self, folder => folder.sheet.all_windows())
    }

    /// Writes the sheet into the buffer, and answers how many bytes it takes.
    pub(crate) fn store(&self, out: &mut [u8]) -> Result<usize, StoreFault>
        ensures answer { result ≡ stores (model_of self.now) (length out.old) }
        ensures within { IfOk result (λ count. count ≤ length out.old) }
    {
        either!(self, folder => store(&folder.sheet, out))
    }

    /// What a code means on the sheet.
    pub(crate) fn end(&self, code: u32) -> End
        ensures { result ≡ end_of self.now code }
    {
        match self {
            Tended::Counter(_) => End::Count(code),
            Tended::Half(_) => End::Half(code),
        }
    }
}
