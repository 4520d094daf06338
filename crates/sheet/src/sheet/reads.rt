//! Setting a sheet up, and reading it, which changes nothing.
ghost use Rattle.std.specs.Prelude.{◌≡◌, ◌+◌, ◌-◌, [], map, length, IfOk};
ghost use Rattle.law.specs.Law.{Law};
ghost use Rattle.law.specs.Sheets.{empty};
ghost use Rattle.law.specs.Steps.{Reached};
ghost use Rattle.tables.specs.Reads.{Read};
ghost use Rattle.tables.specs.Rooms.{RoomOf};
ghost use Rattle.tables.specs.Views.{model};
ghost use Rattle.windows.specs.Windows.{span};

use super::Sheet;
use books::book::Book;
use law::calls::{Refusal, Rule, State};
use std::alloc::{AllocError, Global};
use tables::room::Room;
use tables::tables::Tables;
use windows::window::Window;

impl<B: Book + Drop> Sheet<B> {
    // Beside `in_room`, which cannot want memory: callers who bring no room have this one.
    /// An empty sheet of this number, unsettled. The room for 64 lines, 128 rules and 8 tries is reserved here, so that no
    /// later call can want memory.
    pub fn new(heap: Global, number: u32, book: B) -> Result<Sheet<B>, AllocError>
        ensures empty { IfOk result (λ s. model s.tables ≡ empty) }
        ensures number { IfOk result (λ s. s.number ≡ number) }
        ensures book { IfOk result (λ s. s.book ≡ book) }
        ensures reached { IfOk result (λ s. Reached (B.meaning book) number [] (model s.tables)) }
    {
        Ok(Sheet::in_room(Room::reserve(heap)?, number, book))
    }
}

impl<B: Book> Sheet<B> {
    /// An empty sheet of this number, unsettled, in the room reserved for it.
    pub fn in_room(room: Room, number: u32, book: B) -> Sheet<B>
        ensures empty { model result.tables ≡ empty }
        ensures number { result.number ≡ number }
        ensures book { result.book ≡ book }
        ensures reached { Reached (B.meaning book) number [] (model result.tables) }
        ensures law { Law (B.meaning book) number [] (model result.tables) }
    {
        Sheet {
            book,
            number,
            tables: Tables::new(room),
        }
    }

    /// Ends the sheet: its room and its book, for another one.
    pub fn into_parts(self) -> (Room, B)
        ensures room { RoomOf self.tables result.0 }
        ensures book { result.1 ≡ self.book }
    {
        let Sheet {
            book,
            number: _,
            tables,
        } = self;
        (tables.into_room(), book)
    }
}

impl<B: Book> Sheet<B> {
    /// The window of a line as it is now.
    pub fn window(&self, line: u32) -> Result<Window, Refusal>
        ensures { Read (model self.now.tables) line result }
    {
        self.tables.read_window(line)
    }

    /// The state.
    pub fn state(&self) -> State
        ensures { result ≡ (model self.now.tables).core.state }
    {
        self.tables.state()
    }

    /// How many lines there are.
    pub fn lines(&self) -> u32
        ensures { result ≡ length (model self.now.tables).core.windows }
    {
        self.tables.line_count()
    }

    /// How many rules there are.
    pub fn rules(&self) -> u32
        ensures { result ≡ length (model self.now.tables).core.rules }
    {
        self.tables.rule_count()
    }

    /// How many tries are open.
    pub fn tries(&self) -> u32
        ensures { result ≡ length (model self.now.tables).saved }
    {
        self.tables.try_count()
    }

    /// The windows of all lines, in their order.
    pub fn all_windows(&self) -> &[Window]
        ensures { map span result.now ≡ (model self.now.tables).core.windows }
    {
        self.tables.windows()
    }

    /// All rules, in their order.
    pub fn all_rules(&self) -> &[Rule]
        ensures { result.now ≡ (model self.now.tables).core.rules }
    {
        self.tables.rules()
    }

    /// The sheet's number.
    pub fn number(&self) -> u32
        ensures { result ≡ self.now.number }
    {
        self.number
    }

    /// The sheet's book.
    pub fn book(&self) -> &B
        ensures { result.now ≡ self.now.book }
    {
        &self.book
    }
}
