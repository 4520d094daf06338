//! The smallest box: both corners of all choices, then the ends of the third interval.
ghost use Rattle.boxes.specs.Boxes.{Closed};

use crate::field::Field;
use crate::interval::Interval;
use crate::triple::Triple;
use crate::walk::{corner, greatest, least};
use codes::operation::Operation;
use codes::swapped::Swapped;

/// The smallest box that holds every choice of a code of each side such that the operation makes the third of the first two;
/// `None` exactly where there is no such choice.
pub fn smallest_box<O: Operation + Copy>(op: O, sides: Triple<Interval>) -> Option<Triple<Interval>>
    ensures { Closed (O.code op) sides.a sides.b sides.c result }
{
    let Triple { a, b, c } = sides;
    let end = c.hi + 1;
    let all = Field {
        x0: a.lo,
        x1: a.hi + 1,
        y0: b.lo,
        y1: b.hi,
        lo: c.lo,
        end,
    };
    let left = corner(op, all)?;
    let turned = Field {
        x0: b.lo,
        x1: left.y + 1,
        y0: left.x,
        y1: a.hi,
        lo: c.lo,
        end,
    };
    let right = corner(Swapped { op }, turned)?;
    let inner = Field {
        x0: left.x,
        x1: right.y + 1,
        y0: right.x,
        y1: left.y,
        lo: c.lo,
        end,
    };
    Some(Triple {
        a: Interval {
            lo: left.x,
            hi: right.y,
        },
        b: Interval {
            lo: right.x,
            hi: left.y,
        },
        c: Interval {
            lo: least(op, inner, left),
            hi: greatest(op, inner, left),
        },
    })
}
