//! trace for C consoles, as a static library: the export of the report's `trace`.
#![tactic(auto)]

ghost use Rattle.report.specs.Traces.{TraceOf};

use std::alloc::Global;

/// Reads a stored sheet from `input`, settles it with an allowance of 100,000 narrowings, writes its report at the start of
/// `output` and answers the report's length; bytes after the report stay. With under 1,024 bytes of output it answers 0 and
/// writes nothing. Where memory for the sheet is wanting it answers the greatest `usize` and writes nothing.
#[unsafe(no_mangle)]
pub extern "C" fn trace(heap: Global, input: &[u8], output: &mut [u8]) -> usize
    ensures { TraceOf input.now output.old output.new result }
{
    report::trace::trace(heap, input, output)
}
