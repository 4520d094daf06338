//! cuedesk: reads commands from standard input, one a line, and prints an answer for each.
#![tactic(auto)]

use commands::print::print_answer;
use desk::desk::Desk;
use std::io::{BufRead, BufReader, Write};

/// Plays every line of standard input.
fn play_all(rt: &HostRuntime, desk: &mut Desk) -> anyhow::Result<()> {
    let mut input = BufReader::new(rt.alloc(), rt.stdin())?;
    // One buffer for all lines: `split` makes a `Vec` for each, and an input of short lines took three times as long.
    let mut line = Vec::new(rt.alloc());
    // Nothing says that the input ends, so its lines are counted.
    for _ in 0..u64::MAX {
        line.clear();
        if input.read_until(b'\n', &mut line)? == 0 {
            break;
        }
        let text = line.strip_suffix(b"\n").unwrap_or(&line);
        if let Some(answer) = desk.play(rt.alloc(), text)? {
            rt.print(print_answer(rt.alloc(), &answer)?)?;
        }
    }
    Ok(())
}

/// Plays, then strikes the tries that are still open.
fn main(rt: HostRuntime) -> anyhow::Result<()> {
    let mut desk = Desk::new(rt.alloc());
    let played = play_all(&rt, &mut desk);
    desk.close();
    played
}
