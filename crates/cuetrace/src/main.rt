//! cuetrace: reads a stored sheet from standard input and prints its report.
#![tactic(auto)]

use anyhow::anyhow;
use report::text::REPORT_MAX;
use report::trace::try_trace;
use std::io::{Read, Write};

/// Reads all of standard input, and prints the report.
fn run(rt: &HostRuntime) -> anyhow::Result<()> {
    let mut input = Vec::new(rt.alloc());
    rt.stdin().read_to_end(&mut input)?;
    let mut output = [0u8; REPORT_MAX];
    // No plain `?`: the message stays what it was.
    let length = try_trace(rt.alloc(), input.as_slice(), &mut output).map_err(|_| anyhow!(
        "out of memory"
    ))?;
    rt.stdout().write_all(&output[..length])?;
    Ok(())
}

fn main(rt: HostRuntime) -> anyhow::Result<()> {
    run(&rt)
}
