//! Why a command has no effect.
ghost use Rattle.std.specs.Prelude.{◌≡◌};
ghost use Rattle.books.specs.HalfBooks.{fault_number};
ghost use Rattle.commands.specs.declared.reply.Reply.{Reply as AnyReply};
ghost use Rattle.desk.specs.declared.no_effect.NoEffect.TheVariants.{Memory, Told};
ghost use Rattle.desk.specs.Effects.{unless_memory};
ghost use Rattle.law.specs.Refusals.{numbered};
ghost use Rattle.stored.specs.Faults.{store_number};

use books::half_book::BookFault;
use commands::print::Answer;
use commands::reply::{Fault, Reply};
use law::calls::Refusal;
use std::alloc::AllocError;
use stored::fault::StoreFault;

/// Why a command has no effect.
#[derive(Clone, Copy)]
pub(crate) enum NoEffect {
    /// This is said of it.
    Told(Reply),
    /// Memory ran out.
    Memory(AllocError),
}

impl NoEffect {
    /// What is answered, unless memory ran out.
    pub(crate) fn answer(self) -> Result<Answer, AllocError>
        ensures { result ≡ unless_memory self }
    {
        match self {
            NoEffect::Told(reply) => Ok(Answer::Short(reply)),
            NoEffect::Memory(error) => Err(error),
        }
    }
}

// A `From` for each reason, since `?` asks for it by type; one for all that turn into a number would overlap with the others.
impl From<Fault> for NoEffect {
    ghost from_gives = { λ fault e. e ≡ Told (AnyReply.Error fault) };

    fn from(fault: Fault) -> NoEffect {
        NoEffect::Told(Reply::Error(fault))
    }
}

impl From<Refusal> for NoEffect {
    ghost from_gives = { λ why e. e ≡ Told (AnyReply.Refused (numbered why)) };

    fn from(why: Refusal) -> NoEffect {
        NoEffect::Told(Reply::Refused(u8::from(why)))
    }
}

impl From<BookFault> for NoEffect {
    ghost from_gives = { λ fault e. e ≡ Told (AnyReply.Refused (fault_number fault)) };

    fn from(fault: BookFault) -> NoEffect {
        NoEffect::Told(Reply::Refused(u8::from(fault)))
    }
}

impl From<StoreFault> for NoEffect {
    ghost from_gives = { λ fault e. e ≡ Told (AnyReply.Refused (store_number fault)) };

    fn from(fault: StoreFault) -> NoEffect {
        NoEffect::Told(Reply::Refused(u8::from(fault)))
    }
}

impl From<AllocError> for NoEffect {
    ghost from_gives = { λ error e. e ≡ Memory error };

    fn from(error: AllocError) -> NoEffect {
        NoEffect::Memory(error)
    }
}
