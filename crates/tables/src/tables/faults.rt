//! The cases in which calls are turned away: by the sheet's state, and after it by the table.
ghost use Rattle.std.specs.Prelude.{◌≡◌, map, vec_len};
ghost use Rattle.law.specs.Faults.{fault};
ghost use Rattle.law.specs.Sheets.{named_by, window};
ghost use Rattle.law.specs.Table.{first, line_cases, misnames, no_line, open_cases, pinch_cases, repeats, rule_cases, ticket_cases};
ghost use Rattle.tables.specs.States.{follows};
ghost use Rattle.windows.specs.Windows.{span};

use super::Tables;
use crate::state::{Event, next_state};
use books::book::Book;
use law::calls::{Refusal, Rule, State};
use law::table::{Check, first_fault};

/// Whether no line has the number `k`, where there are `lines`.
pub(super) fn no_line(lines: u32, k: u32) -> bool
    ensures { result ≡ no_line lines k }
{
    k == 0 || lines < k
}

/// Whether a rule of `arity` lines names one that is not there, or a third where it has two.
fn misnamed(arity: u32, lines: u32, rule: Rule) -> bool
    ensures { result ≡ misnames arity lines rule }
{
    match arity {
        0 => false,
        1 => no_line(lines, rule.a),
        2 => no_line(lines, rule.a) || no_line(lines, rule.b) || rule.c != 0,
        _ => no_line(lines, rule.a) || no_line(lines, rule.b) || no_line(lines, rule.c),
    }
}

/// Whether a rule of `arity` lines names one twice.
fn repeated(arity: u32, rule: Rule) -> bool
    ensures { result ≡ repeats (named_by arity rule) }
{
    match arity {
        0 | 1 => false,
        2 => rule.a == rule.b,
        _ => rule.a == rule.b || rule.a == rule.c || rule.b == rule.c,
    }
}

// The cases are data: each has its refusal whether it applies or not, as in the definitions, which are lists of them.
impl Tables {
    /// The state after the event; a barren sheet takes nothing but a strike.
    pub fn admit(&self, event: Event) -> Result<State, Refusal>
        ensures { result ≡ follows self.now.state event }
    {
        next_state(self.state, event)
    }

    /// The cases of a line, up to the code `top`.
    pub fn check_line(&self, top: u32, lo: u32, hi: u32) -> Result<(), Refusal>
        ensures { fault result ≡ first (line_cases top (vec_len self.now.lines.windows) lo hi) }
    {
        first_fault(&[
            Check {
                why: Refusal::Ends,
                applies: hi < lo || top < hi,
            },
            Check {
                why: Refusal::Full,
                applies: 64 <= self.line_count(),
            },
        ])
    }

    /// The cases of a rule, by how many lines the book has for its kind.
    pub fn check_rule<B: Book>(&self, rule: Rule) -> Result<(), Refusal>
        ensures { fault result ≡ first (rule_cases (B.arity rule.kind) (vec_len self.now.lines.windows) (vec_len self.now.rules.items) rule) }
    {
        let count = B::lines(rule.kind);
        first_fault(&[
            Check {
                why: Refusal::NoKind,
                applies: count == 0,
            },
            Check {
                why: Refusal::NoLine,
                applies: misnamed(count, self.line_count(), rule),
            },
            Check {
                why: Refusal::Twice,
                applies: repeated(count, rule),
            },
            Check {
                why: Refusal::Full,
                applies: 128 <= self.rule_count(),
            },
        ])
    }

    /// The cases of a pinch, up to the code `top`.
    pub fn check_pinch(&self, top: u32, k: u32, lo: u32, hi: u32) -> Result<(), Refusal>
        ensures { fault result ≡ first (pinch_cases top (vec_len self.now.lines.windows) (window (map span self.now.lines.windows.items) k) k lo hi) }
    {
        let present = self.lines.window(k);
        first_fault(&[
            Check {
                why: Refusal::NoLine,
                applies: no_line(self.line_count(), k),
            },
            Check {
                why: Refusal::Ends,
                applies: hi < lo || top < hi,
            },
            Check {
                why: Refusal::Empties,
                applies: present.hi().min(hi) < present.lo().max(lo),
            },
        ])
    }

    /// The case of an open.
    pub fn check_open(&self) -> Result<(), Refusal>
        ensures { fault result ≡ first (open_cases (vec_len self.now.tries)) }
    {
        first_fault(&[Check {
            why: Refusal::TooManyTries,
            applies: 8 <= self.try_count(),
        }])
    }

    /// The case of a keep or a strike, on the sheet of the number `id`.
    pub fn check_ticket(&self, id: u32, number: u32, depth: u32) -> Result<(), Refusal>
        ensures { fault result ≡ first (ticket_cases id (vec_len self.now.tries) number depth) }
    {
        first_fault(&[Check {
            why: Refusal::WrongTicket,
            applies: number != id || depth != self.try_count() || depth == 0,
        }])
    }
}
