//! An operation with its two arguments exchanged, which is an operation too.
ghost use Rattle.std.proofs.Common.{rules};

use crate::operation::Operation;

#[derive(Clone, Copy, Debug, PartialEq, Eq, Hash)]
pub struct Swapped<O> {
    pub op: O,
}

impl<O: Operation> Operation for Swapped<O> {
    ghost top = { λ s. O.Operation.top s.op };

    ghost code = { λ s a b. O.Operation.code s.op b a };

    ghost rises = { λ s a a' b b' ha hb. O.Operation.rises s.op b b' a a' hb ha };

    ghost bounded = { Prim.search rules };

    ghost over = { Prim.search rules };

    fn apply(&self, a: u32, b: u32) -> u32 {
        self.op.apply(b, a)
    }

    fn hint(&self, known: u32, t: u32) -> Option<u32> {
        self.op.hint(known, t)
    }
}
