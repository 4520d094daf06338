//! Bytes in hexadecimal, read.
ghost use Rattle.std.specs.Prelude.{◌≡◌, ◌<◌, [], None, unwrap_or, IfOk};
ghost use Rattle.std.specs.List.{last_or};
ghost use Rattle.commands.specs.Meaning.{brought};
ghost use Rattle.commands.specs.Numbers.{decoded, nibble as nibble-of};
ghost use Rattle.commands.specs.Words.{words};

use crate::words::Words;
use std::alloc::{AllocError, Global};

/// What a hexadecimal digit counts; 0 for any other byte.
fn nibble(byte: u8) -> u32
    ensures value { result ≡ nibble-of byte }
    ensures small { result < 16 }
{
    char::from(byte).to_digit(16).unwrap_or(0)
}

/// The bytes that pairs of digits stand for.
fn decode(heap: Global, hex: &[u8]) -> Result<Vec<u8>, AllocError>
    ensures { IfOk result (λ v. v.items ≡ decoded hex.now) }
{
    let (pairs, _) = hex.as_chunks::<2>();
    pairs
        .iter()
        .map(|[high, low]| (16 * nibble(*high) + nibble(*low)) as u8)
        .collect(heap)
}

/// The last word of a line, or nothing.
fn last_word(line: &[u8]) -> &[u8]
    ensures { result.now ≡ unwrap_or (last_or None (words line.now)) [] }
{
    Words::new(line).last().unwrap_or(&[])
}

/// The bytes that a line brings to load: those of its last word.
pub fn brought_bytes(heap: Global, line: &[u8]) -> Result<Vec<u8>, AllocError>
    ensures { IfOk result (λ v. v.items ≡ brought line.now) }
{
    decode(heap, last_word(line))
}
