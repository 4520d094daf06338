//! The commands, played.
ghost use Rattle.std.specs.Prelude.{◌≡◌, ◌-◌, ◌≤◌, ◌↔◌, IfOk, IfErr, IsErr, slice_index_or, vec_len};
ghost use Rattle.commands.specs.declared.reply.Fault.{Fault as AnyFault};
ghost use Rattle.commands.specs.declared.reply.Reply.{Reply as AnyReply};
ghost use Rattle.commands.specs.Meaning.{meaning};
ghost use Rattle.desk.specs.Plays.{Heard, LinesTold, OnPresent, PlainPlayed, StoreTold, ValueTold, WindowTold, numbered, replied};
ghost use Rattle.desk.specs.Tended.{model_of};

use super::Desk;
use crate::folder::calls::Plain;
use crate::folder::tickets::Ending;
use crate::no_effect::NoEffect;
use crate::tended::Tended;
use commands::command::Command;
use commands::hex::brought_bytes;
use commands::parse::read_command;
use commands::print::Answer;
use commands::reply::{Fault, Reply};
use law::calls::Answer as Outcome;
use std::alloc::{AllocError, Global};

/// No stored sheet has more bytes.
const STORED_MAX: usize = 2048;

/// What is said of the number of a new line or rule.
fn number_reply(call: Plain, number: u32) -> Reply
    ensures { result ≡ numbered call number }
{
    match call {
        Plain::Rule { .. } => Reply::Rule(number),
        _ => Reply::Line(number),
    }
}

/// What is said of a call's answer.
// No `From`: it depends on the call as well, and both types are of other crates.
fn reply_to(call: Plain, outcome: Outcome) -> Reply
    ensures { result ≡ replied call outcome }
{
    match outcome {
        Outcome::Numbered(number) => number_reply(call, number),
        Outcome::Pinched => Reply::Pinched,
        Outcome::Standing(count) => Reply::Standing(count),
        Outcome::Spent(allowance) => Reply::Spent(allowance),
        Outcome::Barren(rule) => Reply::Barren(rule),
        Outcome::Opened { depth, .. } => Reply::Ticket(depth),
        Outcome::Kept => Reply::Kept,
        Outcome::Struck => Reply::Struck,
        Outcome::Refused(why) => Reply::Refused(u8::from(why)),
    }
}

/// The window of a line, or why there is none.
fn read_window(present: &Tended, line: u32) -> Result<Reply, NoEffect>
    ensures { WindowTold (model_of present.now) line result }
{
    let window = present.window(line)?;
    Ok(Reply::Window {
        lo: window.lo(),
        hi: window.hi(),
    })
}

/// What the ends of a line mean.
fn read_value(present: &Tended, line: u32) -> Result<Reply, NoEffect>
    ensures { ValueTold present.now line result }
{
    let window = present.window(line)?;
    Ok(Reply::Value {
        lo: present.end(window.lo()),
        hi: present.end(window.hi()),
    })
}

/// The windows of all lines.
fn read_lines(heap: Global, present: &Tended) -> Result<Answer, NoEffect>
    ensures { LinesTold (model_of present.now) result }
{
    let windows = Vec::from_slice(heap, present.windows())?;
    Ok(Answer::Lines(windows))
}

/// The bytes of the stored sheet.
fn read_stored(heap: Global, present: &Tended) -> Result<Answer, NoEffect>
    ensures { StoreTold (model_of present.now) STORED_MAX result }
{
    let mut out = [0u8; STORED_MAX];
    let count = present.store(&mut out)?;
    let bytes = Vec::from_slice(heap, &out[..count])?;
    Ok(Answer::Stored(bytes))
}

impl Desk {
    /// Makes a plain call on the present sheet.
    fn plain(&mut self, call: Plain) -> Reply
        ensures present { OnPresent (PlainPlayed call result) (result ≡ AnyReply.Error AnyFault.NonePresent) self.old.folders.items self.new.folders.items }
        ensures answered { self.new.answered ≡ self.old.answered }
    {
        let Some(present) = self.folders.last_mut() else {
            return Reply::Error(Fault::NonePresent);
        };
        reply_to(call, present.plain(call))
    }

    /// The present sheet.
    fn present(&self) -> Result<&Tended, Fault>
        ensures ok { IfOk result (λ t. t.now ≡ slice_index_or self.now.folders.items (vec_len self.now.folders - 1) t.now) }
        ensures err { IfErr result (λ fault. fault ≡ AnyFault.NonePresent) }
        ensures none { IsErr result ↔ (vec_len self.now.folders ≡ 0) }
    {
        self.folders.last().ok_or(Fault::NonePresent)
    }

    /// Carries a command out.
    fn carry_out(&mut self, heap: Global, line: &[u8], command: Command) -> Result<Answer, NoEffect>
        ensures { self.old.answered ≤ self.new.answered }
    {
        let reply = match command {
            Command::Sheet { number, book } => self.sheet(heap, number, book)?,
            Command::Use(number) => self.take(number)?,
            Command::Line { lo, hi } => self.plain(Plain::Line { lo, hi }),
            Command::Rule { kind, a, b, c } => self.plain(Plain::Rule { kind, a, b, c }),
            Command::Pinch { line, lo, hi } => self.plain(Plain::Pinch { line, lo, hi }),
            Command::Settle(n) => self.plain(Plain::Settle(n)),
            Command::Open => self.open()?,
            Command::Keep(place) => self.end(place, Ending::Keep)?,
            Command::Strike(place) => self.end(place, Ending::Strike)?,
            Command::Load { number, book } => {
                let bytes = brought_bytes(heap, line)?;
                self.load(heap, number, book, bytes.as_slice())?
            }
            Command::Window(line) => read_window(self.present()?, line)?,
            Command::Value(line) => read_value(self.present()?, line)?,
            Command::State => Reply::State(self.present()?.state()),
            Command::Lines => return read_lines(heap, self.present()?),
            Command::Store => return read_stored(heap, self.present()?),
            Command::Help => return Ok(Answer::Help),
        };
        Ok(Answer::Short(reply))
    }

    /// Plays a line. Nothing is answered to one that is passed over.
    pub fn play(&mut self, heap: Global, line: &[u8]) -> Result<Option<Answer>, AllocError>
        ensures { Heard (meaning line.now) self.old self.new result }
    {
        // Three outcomes, each answered in its own way.
        match read_command(line) {
            Err(why) => Ok(Some(Answer::Short(Reply::Error(Fault::Unreadable(why))))),
            Ok(None) => Ok(None),
            Ok(Some(command)) => self
                .carry_out(heap, line, command)
                .or_else(NoEffect::answer)
                .map(Some),
        }
    }
}
