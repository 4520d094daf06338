//! Which sheets there are, and which is the present one.
ghost use Rattle.std.specs.Prelude.{◌≡◌, ◌<◌, [], vec_len, vec_capacity, OnOk, OnErr, IfErr};
ghost use Rattle.commands.specs.declared.reply.Fault.{Fault as AnyFault};
ghost use Rattle.commands.specs.declared.reply.Reply.{Reply as AnyReply};
ghost use Rattle.desk.specs.declared.no_effect.NoEffect.TheVariants.{Told};
ghost use Rattle.desk.specs.Desks.{Clear, Present, Seated};
ghost use Rattle.desk.specs.Tended.{number_of};

use super::Desk;
use crate::folder::set_up::Filed;
use crate::no_effect::NoEffect;
use crate::tended::Tended;
use books::any_book::AnyBook;
use books::half_book::{BookFault, HalfBook};
use commands::command::BookName;
use commands::reply::{Fault, Reply};
use std::alloc::Global;

/// The book of this name; no mode is above 2.
fn open_book(name: BookName) -> Result<AnyBook, BookFault> {
    match name {
        BookName::Counter => Ok(AnyBook::Counter),
        BookName::Half(mode) => {
            let mode = u8::try_from(mode).map_err(|_| BookFault::NoMode)?;
            HalfBook::new(mode).map(AnyBook::Half)
        }
    }
}

impl Desk {
    /// A desk without a sheet.
    pub fn new(heap: Global) -> Desk
        ensures { (result.folders.items ≡ []) × (result.answered ≡ 0) }
    {
        Desk {
            folders: Vec::new(heap),
            answered: 0,
        }
    }

    /// Where the sheet of this number is.
    fn find_sheet(&self, number: u32) -> Option<usize>
        ensures { Seated self.now.folders.items number result }
    {
        self.folders
            .iter()
            .position(|sheet| sheet.number() == number)
    }

    /// Whether a sheet of this number may be set up: one with an open try is in the way.
    fn check_way(&self, number: u32) -> Result<(), Fault>
        ensures ok { OnOk result (Clear number self.now.folders.items) }
        ensures err { IfErr result (λ fault. fault ≡ AnyFault.TryOpen number) }
    {
        let in_the_way = |sheet: &Tended| sheet.number() == number && 0 < sheet.tries();
        if self.folders.iter().any(in_the_way) {
            return Err(Fault::TryOpen(number));
        }
        Ok(())
    }

    /// Makes a sheet the present one, in place of that of its number.
    fn seat(&mut self, sheet: Tended)
        requires { vec_len self.old.folders < vec_capacity self.old.folders }
        ensures present { Present (number_of sheet) self.new.folders.items }
        ensures answered { self.new.answered ≡ self.old.answered }
    {
        if let Some(at) = self.find_sheet(sheet.number()) {
            self.folders.remove(at).close();
        }
        self.folders.push_reserved(sheet);
    }

    /// Sets a sheet up.
    pub(super) fn sheet(
        &mut self,
        heap: Global,
        number: u32,
        name: BookName,
    ) -> Result<Reply, NoEffect>
        ensures present { OnOk result (Present number self.new.folders.items) }
        ensures err { OnErr result (self.new.folders.items ≡ self.old.folders.items) }
        ensures answered { self.new.answered ≡ self.old.answered }
    {
        self.check_way(number)?;
        let book = open_book(name)?;
        self.folders.reserve(1)?;
        let sheet = Tended::new(heap, number, book)?;
        self.seat(sheet);
        Ok(Reply::Sheet(number))
    }

    /// Loads a sheet.
    pub(super) fn load(
        &mut self,
        heap: Global,
        number: u32,
        name: BookName,
        bytes: &[u8],
    ) -> Result<Reply, NoEffect>
        ensures present { OnOk result (Present number self.new.folders.items) }
        ensures err { OnErr result (self.new.folders.items ≡ self.old.folders.items) }
        ensures answered { self.new.answered ≡ self.old.answered }
    {
        self.check_way(number)?;
        let book = open_book(name)?;
        self.folders.reserve(1)?;
        let Filed { folder, fault } = Tended::load(heap, number, book, bytes)?;
        self.seat(folder);
        Ok(fault.map_or(
            Reply::Sheet(number),
            |fault| Reply::RefusedAt {
                why: u8::from(fault),
                at: fault.at(),
            },
        ))
    }

    /// Makes the sheet of this number the present one.
    pub(super) fn take(&mut self, number: u32) -> Result<Reply, NoEffect>
        ensures present { OnOk result (Present number self.new.folders.items) }
        ensures none { IfErr result (λ e. e ≡ Told (AnyReply.Error (AnyFault.NoSheet number))) }
        ensures err { OnErr result (self.new.folders.items ≡ self.old.folders.items) }
        ensures answered { self.new.answered ≡ self.old.answered }
    {
        let at = self.find_sheet(number).ok_or(Fault::NoSheet(number))?;
        let last = self.folders.len() - 1;
        self.folders.swap(at, last);
        Ok(Reply::Sheet(number))
    }

    /// Strikes every open try, innermost first on each sheet, and puts the sheets away.
    pub fn close(self) {
        let Desk {
            folders,
            answered: _,
        } = self;
        put_away(folders);
    }
}

/// Puts sheets away, one after the other.
// No `for`: it wants items that may be dropped, and a sheet with tickets may not.
fn put_away(mut folders: Vec<Tended>) {
    while let Some(tended) = folders.pop() {
        tended.close();
    }
    folders.destroy_empty();
}
