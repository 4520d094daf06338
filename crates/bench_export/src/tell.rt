//! A book's answer told in numbers.
ghost use Rattle.std.specs.Prelude.{◌≡◌};
ghost use Rattle.bench_export.specs.Told.{Told, number, written};

use crate::ends::{Ends, Pair};
use books::book::Book;
use books::narrowing::Narrowing;
use boxes::triple::Triple;
use windows::window::Window;

/// Leaves what an answer leaves, and answers its number, which C takes as it is.
fn tell(answer: Narrowing, ends: &mut Ends) -> u32
    ensures numbers { result ≡ number answer }
    ensures leaves { ends.new ≡ written answer ends.old }
{
    match answer {
        Err(_) => 0,
        Ok(None) => 1,
        Ok(Some(windows)) => {
            *ends = Ends {
                a: Pair::from(windows.a),
                b: Pair::from(windows.b),
                c: Pair::from(windows.c),
            };
            2
        }
    }
}

/// Asks the book to narrow the windows between these ends.
pub(crate) fn narrow_ends<B: Book>(book: &B, kind: u32, ends: &mut Ends) -> u32
    ensures { Told (B.meaning book.now) kind ends.old ends.new result }
{
    let windows = Triple {
        a: Window::from(ends.a),
        b: Window::from(ends.b),
        c: Window::from(ends.c),
    };
    tell(book.narrow(kind, windows), ends)
}
