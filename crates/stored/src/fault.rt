//! Why a load, a store or a reload is refused.
ghost use Rattle.std.specs.Prelude.{◌≡◌};
ghost use Rattle.stored.specs.declared.fault.LoadFault.TheVariants.{Call};
ghost use Rattle.stored.specs.declared.fault.ReloadFault.TheVariants.{OutOfMemory, Store};
ghost use Rattle.stored.specs.Faults.{load_at, load_number, store_number};

use law::calls::Refusal;
use std::alloc::AllocError;

/// Why a load is refused, with the index of a record where one is to blame.
#[derive(Clone, Copy, PartialEq, Eq, Debug)]
pub enum LoadFault {
    /// The length is 0, over 2048 or no multiple of 8.
    Length,
    /// The head is not that of a stored sheet of this book.
    Head,
    /// The chain leaves the file at this index, or does not end.
    Chain(u8),
    /// The record at this index has no known kind, or an unused byte of it is not 0.
    Record(u8),
    /// The line or rule of the record at this index was turned away.
    Call(Refusal, u8),
}

/// The fault's number.
impl From<LoadFault> for u8 {
    ghost from_gives = { λ fault number. number ≡ load_number fault };

    fn from(fault: LoadFault) -> u8 {
        match fault {
            LoadFault::Length => 10,
            LoadFault::Head => 11,
            LoadFault::Chain(_) => 12,
            LoadFault::Record(_) => 13,
            LoadFault::Call(why, _) => u8::from(why),
        }
    }
}

impl LoadFault {
    /// The index that the fault names.
    pub fn at(self) -> u8
        ensures { result ≡ load_at self }
    {
        match self {
            LoadFault::Length | LoadFault::Head => 0,
            LoadFault::Chain(at) | LoadFault::Record(at) => at,
            LoadFault::Call(_, at) => at,
        }
    }
}

/// A refusal of a line or rule, with the index of its record.
#[derive(Clone, Copy, PartialEq, Eq, Debug)]
pub struct Placed {
    pub why: Refusal,
    pub at: u8,
}

impl From<Placed> for LoadFault {
    ghost from_gives = { λ p r. r ≡ Call p.why p.at };

    fn from(placed: Placed) -> LoadFault {
        LoadFault::Call(placed.why, placed.at)
    }
}

/// Why a store is refused.
#[derive(Clone, Copy, PartialEq, Eq, Debug)]
pub enum StoreFault {
    /// A try is open.
    TryOpen,
    /// The sheet is barren.
    IsBarren,
    /// The buffer is too short.
    Short,
}

/// The fault's number.
impl From<StoreFault> for u8 {
    ghost from_gives = { λ fault number. number ≡ store_number fault };

    fn from(fault: StoreFault) -> u8 {
        match fault {
            StoreFault::TryOpen => 15,
            StoreFault::IsBarren => 7,
            StoreFault::Short => 14,
        }
    }
}

/// Why a reload gives no sheet.
#[derive(Clone, Copy, PartialEq, Eq, Debug)]
pub enum ReloadFault {
    /// The store is refused.
    Store(StoreFault),
    /// Memory for the new sheet is wanting.
    OutOfMemory,
}

impl From<StoreFault> for ReloadFault {
    ghost from_gives = { λ why r. r ≡ Store why };

    fn from(why: StoreFault) -> ReloadFault {
        ReloadFault::Store(why)
    }
}

impl From<AllocError> for ReloadFault {
    ghost from_gives = { λ _ r. r ≡ OutOfMemory };

    fn from(_wanting: AllocError) -> ReloadFault {
        ReloadFault::OutOfMemory
    }
}
