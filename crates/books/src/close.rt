//! Rule closers: the smallest box of each kind of rule, and the narrowing that every book is made of.
ghost use Rattle.std.specs.Prelude.{◌≡◌, ◌<◌, ◌≤◌, true, false, [], ◌∷◌, MatchOption};
ghost use Rattle.books.specs.Kinds.{Made, Meets, MeetsOf, IsNotAfter, among, lines, lines_of};
ghost use Rattle.books.specs.Narrowings.{Answered, Closing, UpTo, at, ends, read, spans};
ghost use Rattle.windows.specs.Choices.{NoChoice, Smallest};
ghost use Rattle.windows.specs.Windows.{span};

use crate::kind::Kind;
use crate::narrowing::{Narrowing, Unfit};
use boxes::closed::smallest_box;
use boxes::interval::Interval;
use boxes::triple::Triple;
use codes::later::Later;
use codes::operation::Operation;
use windows::window::Window;

/// The window as an interval of an operation.
// A function and no `From`, since neither type is of this crate.
fn interval(w: Window) -> Interval
    requires { w.hi < 2147483647 }
    ensures { at result ≡ span w }
{
    Interval::new(w.lo(), w.hi()).unwrap()
}

/// The window from `lo` to `hi`.
fn window(lo: u32, hi: u32) -> Window
    requires { lo ≤ hi }
    ensures { span result ≡ ends lo hi }
{
    Window::new(lo, hi).unwrap()
}

/// The smallest box of three windows under an operation.
fn by_operation<O: Operation + Copy>(op: O, windows: Triple<Window>) -> Option<Triple<Window>>
    requires { (windows.a.hi < 2147483647) × ((windows.b.hi < 2147483647) × (windows.c.hi < 2147483647)) }
    ensures { Closing 3 (Made (O.code op)) (spans windows) result }
{
    let closed = smallest_box(
        op,
        Triple {
            a: interval(windows.a),
            b: interval(windows.b),
            c: interval(windows.c),
        },
    )?;
    Some(Triple {
        a: window(closed.a.lo(), closed.a.hi()),
        b: window(closed.b.lo(), closed.b.hi()),
        c: window(closed.c.lo(), closed.c.hi()),
    })
}

/// The smallest box of two windows whose codes are in order.
fn in_order(a: Window, b: Window) -> Option<(Window, Window)>
    ensures { MatchOption result (NoChoice IsNotAfter (span a ∷ span b ∷ [])) (λ closed. Smallest IsNotAfter (span a ∷ span b ∷ []) (span closed.0 ∷ span closed.1 ∷ [])) }
{
    if a.lo() > b.hi() {
        return None;
    }
    Some((
        window(a.lo(), a.hi().min(b.hi())),
        window(a.lo().max(b.lo()), b.hi()),
    ))
}

/// The smallest box of two windows whose codes are in order; the third is passed over.
fn not_after(windows: Triple<Window>) -> Option<Triple<Window>>
    ensures { Closing 2 IsNotAfter (spans windows) result }
{
    let (a, b) = in_order(windows.a, windows.b)?;
    Some(Triple { a, b, ..windows })
}

/// What the rules of a drive are made of: its product, its sum, its top code and its kinds, by their places.
#[derive(Drop)]
pub(crate) struct Drive<P, S> {
    pub(crate) product: P,
    pub(crate) sum: S,
    pub(crate) top: u32,
    pub(crate) kinds: [bool; 8],
    ghost small: { top ≤ 65535 },
}

impl<P: Operation + Copy, S: Operation + Copy> Drive<P, S> {
    /// The smallest box of the windows that a rule of this kind reads.
    fn close(&self, kind: Kind, windows: Triple<Window>) -> Option<Triple<Window>>
        requires { UpTo self.now.top (read (lines kind) (spans windows)) }
        ensures { Closing (lines kind) (Meets (P.Operation.code self.now.product) (S.Operation.code self.now.sum) self.now.top kind) (spans windows) result }
    {
        match kind {
            Kind::Travel => by_operation(self.product, windows),
            Kind::Sum => by_operation(self.sum, windows),
            Kind::Later => by_operation(Later::new(self.top), windows),
            Kind::NotAfter => not_after(windows),
        }
    }

    /// The narrowing of this drive's book, by the kind of this number.
    pub(crate) fn narrow(&self, number: u32, windows: Triple<Window>) -> Narrowing
        ensures { Answered self.now.top (lines_of (among self.now.kinds number)) (MeetsOf (P.Operation.code self.now.product) (S.Operation.code self.now.sum) self.now.top (among self.now.kinds number)) (spans windows) result }
    {
        let Some(kind) = Kind::among(&self.kinds, number) else {
            return Err(Unfit);
        };
        if !fits(self.top, kind, windows) {
            return Err(Unfit);
        }
        Ok(self.close(kind, windows))
    }
}

/// Whether no end of the windows that a rule of this kind reads is above `top`.
fn fits(top: u32, kind: Kind, windows: Triple<Window>) -> bool
    ensures { elim result [ true ↦ UpTo top (read (lines kind) (spans windows)) | false ↦ (UpTo top (read (lines kind) (spans windows)) → ⊥) ] }
{
    let Triple { a, b, c } = windows;
    match kind {
        Kind::NotAfter => a.hi() <= top && b.hi() <= top,
        Kind::Travel | Kind::Sum | Kind::Later => a.hi() <= top && b.hi() <= top && c.hi() <= top,
    }
}
