//! What holds of every trace.
ghost use Rattle.std.specs.Prelude.{◌≡◌};
ghost use Rattle.report.specs.Traces.{UniqueTrace};

/// A trace leaves one memory and gives one answer, for every input and memory: what `trace_in` promises is all there is.
/// Answers how many outcomes it has.
pub fn one_trace() -> u32
    ensures outcomes { result ≡ 1 }
    ensures unique { UniqueTrace }
{
    1
}
