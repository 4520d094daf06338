//! Folders set up, and read.
ghost use Rattle.std.specs.Prelude.{◌≡◌, [], IfOk};
ghost use Rattle.desk.specs.Hands.{Found};
ghost use Rattle.law.specs.Sheets.{empty};
ghost use Rattle.tables.specs.Views.{model};

use super::Folder;
use books::book::Book;
use sheet::sheet::Sheet;
use std::alloc::{AllocError, Global};
use stored::fault::LoadFault;
use stored::load::{Loaded, load_in};
use tables::room::Room;

/// How many tickets a folder has room for: a sheet opens no more tries.
const ROOM: usize = 8;

/// What a load left, with the fault for which the bytes were refused.
// No `Result`, as for `Loaded`: a folder is left beside the fault.
pub(crate) struct Filed<F> {
    pub(crate) folder: F,
    pub(crate) fault: Option<LoadFault>,
}

impl<F> Filed<F> {
    /// The same, with what is made of the folder.
    pub(crate) fn map<G, M: FnOnce(F) -> G>(self, make: M) -> Filed<G>
        requires { M.pre make self.folder }
        ensures folder { M.post make self.folder result.folder }
        ensures fault { result.fault ≡ self.fault }
    {
        let Filed { folder, fault } = self;
        Filed {
            folder: make(folder),
            fault,
        }
    }
}

impl<B: Book + Drop> Folder<B> {
    /// A folder for an empty sheet of this number.
    pub(crate) fn new(heap: Global, number: u32, book: B) -> Result<Folder<B>, AllocError>
        ensures empty { IfOk result (λ f. model f.sheet.tables ≡ empty) }
        ensures number { IfOk result (λ f. f.sheet.number ≡ number) }
        ensures book { IfOk result (λ f. f.sheet.book ≡ book) }
        ensures hand { IfOk result (λ f. f.hand.items ≡ []) }
    {
        let room = Room::reserve(heap)?;
        let hand = Vec::with_capacity(heap, ROOM)?;
        let sheet = Sheet::in_room(room, number, book);
        Ok(Folder { sheet, hand })
    }

    /// A folder for the sheet that these bytes store, or for an empty one where they are refused.
    pub(crate) fn load(
        heap: Global,
        number: u32,
        book: B,
        bytes: &[u8],
    ) -> Result<Filed<Folder<B>>, AllocError>
        ensures number { IfOk result (λ f. f.folder.sheet.number ≡ number) }
        ensures book { IfOk result (λ f. f.folder.sheet.book ≡ book) }
        ensures hand { IfOk result (λ f. f.folder.hand.items ≡ []) }
    {
        let room = Room::reserve(heap)?;
        let hand = Vec::with_capacity(heap, ROOM)?;
        let Loaded { sheet, fault } = load_in(room, number, book, bytes);
        Ok(Filed {
            folder: Folder { sheet, hand },
            fault,
        })
    }
}

impl<B: Book> Folder<B> {
    /// Where a ticket of this place is in hand.
    pub(crate) fn find(&self, place: u32) -> Option<usize>
        ensures { Found self.now.hand.items place result }
    {
        self.hand.iter().position(|held| held.place == place)
    }
}
