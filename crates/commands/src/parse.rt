//! Reading a line.
ghost use Rattle.std.specs.Prelude.{◌≡◌, Ok as AnOk, Err as AnErr, MatchResult};
ghost use Rattle.commands.specs.declared.command.Command.{Command as AnyCommand};
ghost use Rattle.commands.specs.declared.verb.Verb.{Verb as AnyVerb};
ghost use Rattle.commands.specs.Meaning.{arguments, by_words, file, four, meaning, next_book, one, three, two};
ghost use Rattle.commands.specs.Numbers.{is_hex as hex-word};
ghost use Rattle.commands.specs.Words.{words as words_of};

use crate::command::{BookName, Command, Unreadable};
use crate::verb::Verb;
use crate::words::Words;

/// The next book.
fn next_book(words: &mut Words<'_>) -> Result<BookName, Unreadable>
    ensures { MatchResult result (λ book. next_book words.old ≡ AnOk (book, words.new)) (λ why. next_book words.old ≡ AnErr why) }
{
    let word = words.next_word()?;
    if word == b"counter".as_slice() {
        Ok(BookName::Counter)
    } else if word == b"half".as_slice() {
        words.next_number().map(BookName::Half)
    } else {
        Err(Unreadable::NoBook)
    }
}

/// Whether a word is a row of bytes in hexadecimal.
fn is_hex(word: &[u8]) -> bool
    ensures { result ≡ hex-word word.now }
{
    word.len() % 2 == 0 && word.iter().all(|byte| byte.is_ascii_hexdigit())
}

/// Sees that one word is left, and that it is bytes in hexadecimal.
fn end_file(words: &mut Words<'_>) -> Result<(), Unreadable>
    ensures { result ≡ file words.old }
{
    if !is_hex(words.next_word()?) {
        return Err(Unreadable::NoHex);
    }
    words.end()
}

/// A sheet's number and book.
fn read_sheet(words: &mut Words<'_>) -> Result<Command, Unreadable>
    ensures { result ≡ arguments AnyVerb.Sheet words.old }
{
    let number = words.next_number()?;
    let book = next_book(words)?;
    words.end()?;
    Ok(Command::Sheet { number, book })
}

/// The number, the book and the bytes of a load.
fn read_load(words: &mut Words<'_>) -> Result<Command, Unreadable>
    ensures { result ≡ arguments AnyVerb.Load words.old }
{
    let number = words.next_number()?;
    let book = next_book(words)?;
    end_file(words)?;
    Ok(Command::Load { number, book })
}

/// The number of a command that takes one.
fn read_one(words: &mut Words<'_>) -> Result<u32, Unreadable>
    ensures { result ≡ one words.old }
{
    let [number] = words.numbers::<1>()?;
    Ok(number)
}

/// A line's ends.
fn read_line(words: &mut Words<'_>) -> Result<Command, Unreadable>
    ensures { result ≡ two AnyCommand.Line words.old }
{
    let [lo, hi] = words.numbers::<2>()?;
    Ok(Command::Line { lo, hi })
}

/// A pinch's line and ends.
fn read_pinch(words: &mut Words<'_>) -> Result<Command, Unreadable>
    ensures { result ≡ three AnyCommand.Pinch words.old }
{
    let [line, lo, hi] = words.numbers::<3>()?;
    Ok(Command::Pinch { line, lo, hi })
}

/// A rule's kind and lines.
fn read_rule(words: &mut Words<'_>) -> Result<Command, Unreadable>
    ensures { result ≡ four AnyCommand.Rule words.old }
{
    let [kind, a, b, c] = words.numbers::<4>()?;
    Ok(Command::Rule { kind, a, b, c })
}

/// The command that a verb and the words after it are.
fn read_arguments(verb: Verb, words: &mut Words<'_>) -> Result<Command, Unreadable>
    ensures { result ≡ arguments verb words.old }
{
    match verb {
        Verb::Sheet => read_sheet(words),
        Verb::Use => read_one(words).map(Command::Use),
        Verb::Line => read_line(words),
        Verb::Rule => read_rule(words),
        Verb::Pinch => read_pinch(words),
        Verb::Settle => read_one(words).map(Command::Settle),
        Verb::Open => words.end().map(|()| Command::Open),
        Verb::Keep => read_one(words).map(Command::Keep),
        Verb::Strike => read_one(words).map(Command::Strike),
        Verb::Window => read_one(words).map(Command::Window),
        Verb::State => words.end().map(|()| Command::State),
        Verb::Lines => words.end().map(|()| Command::Lines),
        Verb::Store => words.end().map(|()| Command::Store),
        Verb::Load => read_load(words),
        Verb::Value => read_one(words).map(Command::Value),
        Verb::Help => words.end().map(|()| Command::Help),
    }
}

/// The command of a line's words.
fn read_words(line: &[u8]) -> Result<Option<Command>, Unreadable>
    ensures { result ≡ by_words (words_of line.now) }
{
    let mut words = Words::new(line);
    let Some(word) = words.next() else {
        return Ok(None);
    };
    let verb = Verb::try_from(word)?;
    read_arguments(verb, &mut words).map(Some)
}

/// What a line means: a command, or nothing where it is passed over, or why it cannot be read.
pub fn read_command(line: &[u8]) -> Result<Option<Command>, Unreadable>
    ensures { result ≡ meaning line.now }
{
    if line.starts_with(b"#") {
        return Ok(None);
    }
    read_words(line)
}
