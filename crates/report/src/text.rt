//! The text of a report, written into memory that the caller brings.
ghost use Rattle.std.specs.Prelude.{◌≡◌, ◌≤◌, map};
ghost use Rattle.report.specs.Report.{after_report, report_answer};
ghost use Rattle.windows.specs.Windows.{span};

use crate::lines::{Text, are_printable, push_report};
use crate::refused::RefusedAt;
use runs::settled::Settled;
use windows::window::Window;

/// No report has more bytes.
pub const REPORT_MAX: usize = 1024;

/// Writes the report of an outcome, with these windows after an answer of settle, at the start of `out`, and answers its
/// length; bytes after it stay. Where `out` has under 1,024 bytes, or the windows are more than 64 or have an end above
/// 65,535, it answers 0 and leaves `out` as it is.
pub fn write_report(
    outcome: Result<Settled, RefusedAt>,
    windows: &[Window],
    out: &mut [u8],
) -> usize
    ensures bytes { out.new ≡ after_report outcome (map span windows.now) out.old }
    ensures count { result ≡ report_answer outcome (map span windows.now) out.old }
    ensures short { result ≤ 1024 }
{
    // 0 and not an error: `trace` hands it on to C as it is, and the answer of a public call stays what it was.
    if out.len() < REPORT_MAX || !are_printable(windows) {
        return 0;
    }
    let mut text = Text {
        memory: out,
        len: 0,
    };
    push_report(&mut text, outcome, windows);
    text.len
}
