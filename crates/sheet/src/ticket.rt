//! The ticket of a try: a token that is spent in the end by keep or strike.
ghost use Rattle.std.specs.Prelude.{◌≡◌};

use law::calls::Refusal;

/// What an open answers: the number of its sheet and the depth of its try. Only a sheet makes one, and none may be let go.
pub struct Ticket {
    pub(crate) number: u32,
    pub(crate) depth: u32,
}

impl Drop for Ticket {
    /// Lets go a ticket of no try: the depth of a try is above 0, and so is that of each ticket that a sheet makes.
    fn drop(self)
        requires { self.depth ≡ 0 }
    {
        let Ticket {
            number: _,
            depth: _,
        } = self;
    }
}

impl Ticket {
    /// Takes the ticket apart.
    pub(crate) fn spend(self) {
        let Ticket {
            number: _,
            depth: _,
        } = self;
    }
}

/// A ticket that was turned away, and why.
#[derive(Drop)]
pub struct Returned {
    pub why: Refusal,
    pub ticket: Ticket,
}
