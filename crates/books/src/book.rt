//! The book: the interface between a sheet and the rules of one drive.
ghost use Rattle.std.specs.Prelude.{◌≡◌, ℕ, ◌<◌, ◌≤◌, ◌⊎◌, ◌↔◌, Bool, true, false, List, slice_index_or};
ghost use Rattle.books.specs.Narrowings.{Answers, spans};
ghost use Rattle.windows.specs.Meanings.{Counts, Meaning};

use crate::narrowing::Narrowing;
use boxes::triple::Triple;
use windows::window::Window;

/// A set of rule kinds in the arithmetic of one drive. Its `meaning` is how many lines each kind names and which codes of them
/// satisfy it, up to its top code.
pub trait Book {
    /// The top code, at most 65535.
    const TOP: u32;
    /// The drive's number.
    const DRIVE: u8;
    /// The kinds that the book has, by their places.
    const KINDS: [bool; 8];

    ghost TOP: { ℕ };

    ghost DRIVE: { ℕ };

    ghost KINDS: { List Bool };

    ghost arity: { ℕ → ℕ };

    ghost mode: { Self → ℕ };

    ghost meaning: { Self → Meaning };

    /// A kind names 0, 2 or 3 lines: said of the type, for callers that have no book at hand.
    ghost counts: { Counts arity };

    // A kind goes by its number, and a book that has not got it says 0: any number may be asked for, and the rules of the project
    // have it so.
    /// How many lines a kind names: 0 where the book has not got it, else 2 or 3.
    fn lines(kind: u32) -> u32
        ensures { result ≡ arity kind };

    /// The mode of the book at hand.
    fn mode_number(&self) -> u8
        ensures { result ≡ mode self.now };

    /// Closes three windows by a rule of this kind; a two-line kind passes over the third.
    fn narrow(&self, kind: u32, windows: Triple<Window>) -> Narrowing
        ensures { Answers (meaning self.now) kind (spans windows) result };

    ghost small: { TOP ≤ 65535 };

    /// The meaning is one of codes up to the top code.
    ghost top: { (book : Self) → (meaning book).top ≡ TOP };

    /// Each book of the type names as many lines by a kind.
    ghost same: { (book : Self) (kind : ℕ) → (meaning book).arity kind ≡ arity kind };

    /// The kinds that name lines are those that the book has.
    ghost known: { (kind : ℕ) → (slice_index_or KINDS kind false ≡ true) ↔ (0 < arity kind) };

    /// The kinds are out of 2 to 5.
    ghost within: { (kind : ℕ) → (kind < 2) ⊎ (5 < kind) → arity kind ≡ 0 };
}
