//! What accepted calls do to lines, rules and windows.
ghost use Rattle.std.specs.Prelude.{◌≡◌, ◌<◌, ◌≤◌, vec_len};
ghost use Rattle.law.specs.Sheets.{empty};
ghost use Rattle.law.specs.Sound.{SoundCore};
ghost use Rattle.law.specs.Steps.{Settles, with_core};
ghost use Rattle.runs.specs.Rounds.{answered};
ghost use Rattle.tables.specs.Edits.{SameRulesAndTries, lined_as, pinched_as, ruled_as};
ghost use Rattle.tables.specs.Rooms.{RoomOf};
ghost use Rattle.tables.specs.Views.{core, model};
ghost use Rattle.windows.specs.Windows.{span};

use super::Tables;
use crate::room::Room;
use books::book::Book;
use law::calls::{Rule, State};
use runs::settle::settle;
use runs::settled::Settled;
use windows::window::Window;

impl Tables {
    /// Empty tables, in this room.
    pub fn new(room: Room) -> Tables
        ensures { model result ≡ empty }
    {
        let Room {
            mut lines,
            mut rules,
            mut tries,
        } = room;
        lines.windows.clear();
        rules.items.clear();
        tries.clear();
        Tables {
            state: State::Unsettled,
            lines,
            rules,
            tries,
        }
    }

    /// The room that the tables lie in, for another sheet.
    pub fn into_room(self) -> Room
        ensures { RoomOf self result }
    {
        let Tables {
            state: _,
            lines,
            rules,
            tries,
        } = self;
        Room {
            lines,
            rules,
            tries,
        }
    }

    /// One more line; where there are 64 nothing changes.
    pub fn add_line(&mut self, window: Window, next: State)
        ensures added { vec_len self.old.lines.windows < 64 → model self.new ≡ with_core (model self.old) (lined_as next (core self.old) (span window)) }
        ensures full { 64 ≤ vec_len self.old.lines.windows → self.new ≡ self.old }
    {
        if self.lines.windows.len() < 64 {
            self.lines.windows.push_reserved(window);
            self.state = next;
        }
    }

    /// One more rule; where there are 128 nothing changes.
    pub fn add_rule(&mut self, rule: Rule, next: State)
        ensures added { vec_len self.old.rules.items < 128 → model self.new ≡ with_core (model self.old) (ruled_as next (core self.old) rule) }
        ensures full { 128 ≤ vec_len self.old.rules.items → self.new ≡ self.old }
    {
        if self.rules.items.len() < 128 {
            self.rules.items.push_reserved(rule);
            self.state = next;
        }
    }

    /// Another window for line `k`.
    pub fn set_window(&mut self, k: u32, window: Window, next: State)
        ensures { model self.new ≡ with_core (model self.old) (pinched_as next (core self.old) k (span window)) }
    {
        self.lines.put(k, window);
        self.state = next;
    }

    /// Settles with an allowance of `n` narrowings.
    pub fn settle<B: Book>(&mut self, book: &B, n: u32) -> Settled
        ensures kept { SameRulesAndTries (model self.old) (model self.new) }
        ensures settled { SoundCore (B.meaning book.now) (core self.old)
            → Settles (B.meaning book.now) (model self.old) n (model self.new) (answered result) }
    {
        let settled = settle(book, &self.rules, &mut self.lines, n);
        self.state = settled.state();
        settled
    }
}
