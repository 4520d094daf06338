//! Records of a stored sheet, and what they tell.
ghost use Rattle.std.specs.Prelude.{◌≡◌, ◌<◌};
ghost use Rattle.stored.specs.Records.{is_head, read, record_at, records};
ghost use Rattle.stored.specs.Stores.{line_item};
ghost use Rattle.windows.specs.Windows.{span};

use books::book::Book;
use law::calls::Rule;
use windows::window::Window;

/// What a record tells.
#[derive(Clone, Copy, PartialEq, Eq, Debug)]
pub enum Item {
    Line { lo: u32, hi: u32 },
    Rule(Rule),
}

/// A line, by its window as it is now.
impl From<Window> for Item {
    ghost from_gives = { λ window item. item ≡ line_item (span window) };

    fn from(window: Window) -> Item {
        Item::Line {
            lo: window.lo(),
            hi: window.hi(),
        }
    }
}

/// The record of an index.
pub(crate) fn record_at(bytes: &[u8], i: u8) -> &[u8; 8]
    requires { i < records bytes.now }
    ensures { result.now ≡ record_at bytes.now i }
{
    &bytes.as_chunks::<8>().0[usize::from(i)]
}

/// Whether a record is a head for this book.
pub(crate) fn head_fits<B: Book>(book: &B, head: &[u8; 8]) -> bool
    ensures { result ≡ is_head B.DRIVE (B.mode book.now) head.now }
{
    matches!(*head, [1, _, drive, mode, 0, 0, 0, 0] if drive == B::DRIVE && mode == book.mode_number())
}

/// What a record tells; `None` where its kind is not 1 to 5, or an unused byte is not 0.
pub(crate) fn read_item(bytes: &[u8; 8]) -> Option<Item>
    ensures { result ≡ read bytes.now }
{
    match *bytes {
        [1, _, a, b, c, d, 0, 0] => Some(Item::Line {
            lo: u32::from(u16::from_le_bytes([a, b])),
            hi: u32::from(u16::from_le_bytes([c, d])),
        }),
        [kind @ 2..=5, _, a, b, c, 0, 0, 0] => Some(Item::Rule(Rule {
            kind: u32::from(kind),
            a: u32::from(a),
            b: u32::from(b),
            c: u32::from(c),
        })),
        _ => None,
    }
}
