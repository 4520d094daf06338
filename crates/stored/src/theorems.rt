//! What a load comes to, told in the words of the format.
ghost use Rattle.std.specs.Prelude.{◌≡◌, ℕ};
ghost use Rattle.stored.specs.Chains.{Told};

use books::book::Book;

/// With this book a load has no fault exactly where length and head are right and the chain leads to its end by records that
/// can be read, no more than follow the head, whose calls are all accepted; and every fault comes for its reason, at the index
/// that the chain leads to. Answers how many faults of its own a load has.
pub fn load_is_told<B: Book>(book: &B) -> u32
    ensures faults { result ≡ 4 }
    ensures told { (id : ℕ) → Told (B.meaning book.now) id B.DRIVE (B.mode book.now) }
{
    let _ = book;
    4
}
