//! Reading the tables, which changes nothing.
ghost use Rattle.std.specs.Prelude.{◌≡◌, length, vec_len};
ghost use Rattle.tables.specs.Reads.{Read};
ghost use Rattle.tables.specs.Views.{model};

use super::Tables;
use super::faults::no_line;
use law::calls::{Refusal, Rule, State};
use windows::window::Window;

impl Tables {
    /// The state.
    pub fn state(&self) -> State
        ensures { result ≡ self.now.state }
    {
        self.state
    }

    /// The windows of all lines, in their order.
    pub fn windows(&self) -> &[Window]
        ensures { result.now ≡ self.now.lines.windows.items }
    {
        self.lines.windows.as_slice()
    }

    /// All rules, in their order.
    pub fn rules(&self) -> &[Rule]
        ensures { result.now ≡ self.now.rules.items.items }
    {
        self.rules.items.as_slice()
    }

    /// How many lines there are.
    pub fn line_count(&self) -> u32
        ensures len { result ≡ vec_len self.now.lines.windows }
        ensures windows { result ≡ length (model self.now).core.windows }
    {
        self.lines.windows.len() as u32
    }

    /// How many rules there are.
    pub fn rule_count(&self) -> u32
        ensures { result ≡ vec_len self.now.rules.items }
    {
        self.rules.items.len() as u32
    }

    /// How many tries are open.
    pub fn try_count(&self) -> u32
        ensures len { result ≡ vec_len self.now.tries }
        ensures saved { result ≡ length (model self.now).saved }
    {
        self.tries.len() as u32
    }

    /// The window of a line, if there is such a line.
    pub fn read_window(&self, k: u32) -> Result<Window, Refusal>
        ensures { Read (model self.now) k result }
    {
        if no_line(self.line_count(), k) {
            Err(Refusal::NoLine)
        } else {
            Ok(self.lines.window(k))
        }
    }
}
