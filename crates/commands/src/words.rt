//! The words of a line, one after another.

use crate::command::Unreadable;
use crate::number::read_number;
use std::marker::Model;

/// What is left of a line, word by word.
#[derive(Drop)]
pub(crate) struct Words<'a> {
    rest: &'a [u8],
}

/// A clause sees the words that are left, and not their bytes.
impl<'a> Model for Words<'a> {
    ghost use Rattle.std.specs.Prelude.{ℕ, List};
    ghost use Rattle.commands.specs.Words.{words as words_of};

    ghost Value = { List (List ℕ) };

    ghost view = { λ w. words_of w.rest.now };
}

impl<'a> Iterator for Words<'a> {
    type Item = &'a [u8];

    ghost use Rattle.std.specs.Iterator.{YieldsFirstRef, item_count};

    ghost next_gives = { YieldsFirstRef (λ words. words) };

    ghost remaining = { item_count (λ words. words) };

    fn next(&mut self) -> Option<&'a [u8]> {
        let start = self.rest.iter().position(|byte| *byte != b' ')?;
        let (_, line) = self.rest.split_at(start);
        let end = line
            .iter()
            .position(|byte| *byte == b' ')
            .unwrap_or(line.len());
        let (word, rest) = line.split_at(end);
        self.rest = rest;
        Some(word)
    }
}

impl<'a> Words<'a> {
    ghost use Rattle.std.specs.Prelude.{◌≡◌, ◌∷◌, Ok as AnOk, Err as AnErr, MatchResult, []};
    ghost use Rattle.commands.specs.declared.command.Unreadable.TheVariants.{Missing};
    ghost use Rattle.commands.specs.Meaning.{end, next_number, numbers};
    ghost use Rattle.commands.specs.Words.{words as words_of};

    /// The words of a line.
    pub(crate) fn new(line: &'a [u8]) -> Words<'a>
        ensures { result ≡ words_of line.entry.now }
    {
        Words { rest: line }
    }

    /// The next word.
    pub(crate) fn next_word(&mut self) -> Result<&'a [u8], Unreadable>
        ensures { MatchResult result (λ word. self.old ≡ word.now ∷ self.new) (λ why. (self.old ≡ []) × (why ≡ Missing)) }
    {
        self.next().ok_or(Unreadable::Missing)
    }

    /// The number that the next word is.
    pub(crate) fn next_number(&mut self) -> Result<u32, Unreadable>
        ensures { MatchResult result (λ number. next_number self.old ≡ AnOk (number, self.new)) (λ why. next_number self.old ≡ AnErr why) }
    {
        read_number(self.next_word()?)
    }

    /// Sees that no word is left.
    pub(crate) fn end(&mut self) -> Result<(), Unreadable>
        ensures { result ≡ end self.old }
    {
        // The two ways turn about: what is there is the error.
        match self.next() {
            None => Ok(()),
            Some(_) => Err(Unreadable::TooMany),
        }
    }

    /// The next `N` numbers, where no other word is left.
    pub(crate) fn numbers<const N: usize>(&mut self) -> Result<[u32; N], Unreadable>
        ensures { result ≡ numbers N self.old }
    {
        let mut numbers = [0; N];
        for number in numbers.iter_mut() {
            *number = self.next_number()?;
        }
        self.end()?;
        Ok(numbers)
    }
}
