//! Walks along the staircase of an operation's results: to the corner of all hits, and to their least and greatest result.
ghost use Rattle.std.specs.Prelude.{◌+◌, ◌<◌};
ghost use Rattle.boxes.specs.Walks.{Corner, Cornered, Greatest, Hit, Inner, Least, Lowest, Part, Rightmost};

use crate::field::{Field, Point};
use crate::search::{fall, rise};
use codes::operation::Operation;
use codes::swapped::Swapped;

// Loops by hand, here and below: a walk goes on from point to point, and no list is gone over.

/// The hit with the least first and the greatest second code of all hits in the field, or `None` where there is no hit.
/// As long as the result is too low only a greater first code can help, as long as it is too high only a lesser second one.
pub(crate) fn corner<O: Operation + Copy>(op: O, field: Field) -> Option<Point>
    ensures { Cornered (O.code op) field result }
{
    let across = Swapped { op };
    let mut x = field.x0;
    let mut y = field.y1;
    'walk: loop {
        let code = op.apply(x, y);
        if code < field.lo {
            x = rise(&across, y, x + 1, field.x1, field.lo);
            if x == field.x1 {
                return None;
            }
        } else if code >= field.end {
            let above = fall(&op, x, field.y0, y, field.end);
            if above == field.y0 {
                return None;
            }
            y = above - 1;
        } else {
            return Some(Point { x, y, code });
        }
    }
}

// `below` and `above`, `lowest` and `rightmost`, `least` and `greatest` mirror one another: no type turns the direction of a walk
// without turning each of its comparisons.

/// The field right of and below `best`, with the results from its lower end up to those below `best`.
fn below(field: Field, best: Point) -> Field
    requires { Inner field best }
    ensures { Part field best field.lo best.code result }
{
    Field {
        x0: best.x,
        x1: field.x1,
        y0: field.y0,
        y1: best.y,
        lo: field.lo,
        end: best.code,
    }
}

/// The field right of and below `best`, with the results above that of `best`.
fn above(field: Field, best: Point) -> Field
    requires { (Inner field best) × (best.code < field.end) }
    ensures { Part field best (best.code + 1) field.end result }
{
    Field {
        x0: best.x,
        x1: field.x1,
        y0: field.y0,
        y1: best.y,
        lo: best.code + 1,
        end: field.end,
    }
}

/// The lowest hit that has the first code of the hit `at`.
fn lowest<O: Operation + Copy>(op: O, field: Field, at: Point) -> Point
    requires { Hit (O.code op) field at.x at.y }
    ensures { Lowest (O.code op) field at result }
{
    let y = fall(&op, at.x, field.y0, at.y, field.lo);
    Point {
        x: at.x,
        y,
        code: op.apply(at.x, y),
    }
}

/// The rightmost hit that has the second code of the hit `at`.
fn rightmost<O: Operation + Copy>(op: O, field: Field, at: Point) -> Point
    requires { Hit (O.code op) field at.x at.y }
    ensures { Rightmost (O.code op) field at result }
{
    let x = rise(&Swapped { op }, at.y, at.x + 1, field.x1, field.end) - 1;
    Point {
        x,
        y: at.y,
        code: op.apply(x, at.y),
    }
}

/// The least result of all hits, from the corner on: each walk goes through the results below the best so far, and from each
/// hit that it comes to down to the lowest one with the same first code.
pub(crate) fn least<O: Operation + Copy>(op: O, field: Field, start: Point) -> u32
    requires { Corner (O.code op) field start }
    ensures { Least (O.code op) field result }
{
    let bottom = op.apply(field.x0, field.y0);
    if bottom >= field.lo {
        return bottom;
    }
    let mut best = lowest(op, field, start);
    while best.code > field.lo {
        let Some(next) = corner(op, below(field, best)) else {
            break;
        };
        best = lowest(op, field, next);
    }
    best.code
}

/// The greatest result of all hits, from the corner on: each walk goes through the results above the best so far, and from each
/// hit that it comes to on to the rightmost one with the same second code.
pub(crate) fn greatest<O: Operation + Copy>(op: O, field: Field, start: Point) -> u32
    requires { Corner (O.code op) field start }
    ensures { Greatest (O.code op) field result }
{
    let top = op.apply(field.x1 - 1, field.y1);
    if top < field.end {
        return top;
    }
    let mut best = rightmost(op, field, start);
    while best.code < field.end - 1 {
        let Some(next) = corner(op, above(field, best)) else {
            break;
        };
        best = rightmost(op, field, next);
    }
    best.code
}
