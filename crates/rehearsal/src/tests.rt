//! Worked cases of the sheet, as lists of calls with the answers that they must get.
use crate::tickets::{strike_then_keep, try_out};
use books::counter::CounterBook;
use law::calls::{Answer, Call, Refusal, Rule, State};
use runs::settled::Settled;
use sheet::sheet::Sheet;
use sheet::sheet::replay::Replay;
use std::process::Abort;
use std::test::Fail;

/// Plays the calls on counter sheet 7, and holds the answers and the windows at the end to what they must be.
fn plays(
    rt: &(impl Abort + AllocGlobal),
    calls: &[Call],
    answers: &[Answer],
    windows: &[(u32, u32)],
) -> Result<(), Fail> {
    let replay = Replay::of(rt.alloc(), 7, CounterBook, calls)?;
    assert_eq!(rt; replay.answers(), answers);
    let shown = replay.sheet().all_windows().iter();
    assert!(rt; shown.map(|w| (w.lo(), w.hi())).eq(windows.iter().copied()));
    Ok(())
}

fn line(lo: u32, hi: u32) -> Call {
    Call::Line { lo, hi }
}

fn rule(kind: u32, a: u32, b: u32, c: u32) -> Call {
    Call::Rule(Rule { kind, a, b, c })
}

fn pinch(line: u32, lo: u32, hi: u32) -> Call {
    Call::Pinch { line, lo, hi }
}

fn keep(depth: u32) -> Call {
    Call::Keep { number: 7, depth }
}

fn strike(depth: u32) -> Call {
    Call::Strike { number: 7, depth }
}

fn opened(depth: u32) -> Answer {
    Answer::Opened { number: 7, depth }
}

fn number(k: u32) -> Answer {
    Answer::Numbered(k)
}

fn no(why: Refusal) -> Answer {
    Answer::Refused(why)
}

#[test]
fn a_window_creeps_away(rt: HostRuntime) -> Result<(), Fail> {
    let set_up = [
        line(0, 1023),
        line(1, 1),
        line(0, 1023),
        rule(3, 1, 2, 3),
        rule(5, 3, 1, 0),
    ];
    let numbers = [number(1), number(2), number(3), number(1), number(2)];
    let [a, b, c, d, e] = set_up;
    let [p, q, r, s, t] = numbers;
    plays(
        &rt,
        &[a, b, c, d, e, Call::Settle(1023)],
        &[p, q, r, s, t, Answer::Barren(2)],
        &[(0, 1023), (1, 1), (0, 1023)],
    )?;
    plays(
        &rt,
        &[a, b, c, d, e, Call::Settle(1022)],
        &[p, q, r, s, t, Answer::Spent(1022)],
        &[(511, 512), (1, 1), (511, 512)],
    )
}

#[test]
fn a_window_creeps_step_by_step(rt: HostRuntime) -> Result<(), Fail> {
    let set_up = [
        line(0, 1023),
        line(1, 1),
        line(0, 1023),
        rule(3, 1, 2, 3),
        rule(5, 3, 1, 0),
    ];
    let numbers = [number(1), number(2), number(3), number(1), number(2)];
    let [a, b, c, d, e] = set_up;
    let [p, q, r, s, t] = numbers;
    let first = [
        (0, (0, 1023), (0, 1023)),
        (1, (0, 1022), (1, 1023)),
        (2, (1, 1022), (1, 1022)),
    ];
    for (n, one, three) in first {
        plays(
            &rt,
            &[a, b, c, d, e, Call::Settle(n)],
            &[p, q, r, s, t, Answer::Spent(n)],
            &[one, (1, 1), three],
        )?;
    }
    Ok(())
}

#[test]
fn two_rules_move_one_line_in_the_same_round(rt: HostRuntime) -> Result<(), Fail> {
    plays(
        &rt,
        &[
            line(5, 10),
            line(0, 10),
            line(0, 7),
            rule(5, 1, 2, 0),
            rule(5, 2, 3, 0),
            Call::Settle(2),
            Call::Settle(9),
        ],
        &[
            number(1),
            number(2),
            number(3),
            number(1),
            number(2),
            Answer::Spent(2),
            Answer::Standing(1),
        ],
        &[(5, 7), (5, 7), (5, 7)],
    )
}

#[test]
fn tries_nest(rt: HostRuntime) -> Result<(), Fail> {
    plays(
        &rt,
        &[
            line(0, 9),
            Call::Open,
            line(1, 2),
            Call::Open,
            pinch(1, 3, 20),
            rule(5, 1, 2, 0),
            keep(1),
            keep(2),
            Call::Settle(9),
            line(0, 1),
            strike(1),
            line(4, 5),
        ],
        &[
            number(1),
            opened(1),
            number(2),
            opened(2),
            Answer::Pinched,
            number(1),
            no(Refusal::WrongTicket),
            Answer::Kept,
            Answer::Barren(1),
            no(Refusal::IsBarren),
            Answer::Struck,
            number(2),
        ],
        &[(0, 9), (4, 5)],
    )
}

#[test]
fn refusals_come_in_their_order(rt: HostRuntime) -> Result<(), Fail> {
    plays(
        &rt,
        &[
            line(2, 1),
            line(0, 65536),
            line(0, 9),
            line(0, 9),
            rule(9, 1, 1, 0),
            rule(5, 1, 1, 3),
            rule(5, 1, 1, 0),
            rule(2, 1, 2, 0),
            rule(2, 1, 2, 2),
            pinch(3, 2, 1),
            pinch(1, 2, 1),
            pinch(1, 20, 30),
            keep(0),
            Call::Strike {
                number: 8,
                depth: 1,
            },
        ],
        &[
            no(Refusal::Ends),
            no(Refusal::Ends),
            number(1),
            number(2),
            no(Refusal::NoKind),
            no(Refusal::NoLine),
            no(Refusal::Twice),
            no(Refusal::NoLine),
            no(Refusal::Twice),
            no(Refusal::NoLine),
            no(Refusal::Ends),
            no(Refusal::Empties),
            no(Refusal::WrongTicket),
            no(Refusal::WrongTicket),
        ],
        &[(0, 9), (0, 9)],
    )
}

#[test]
fn a_client_spends_its_tickets(rt: HostRuntime) -> Result<(), Fail> {
    let mut sheet = Sheet::new(rt.alloc(), 1, CounterBook)?;
    assert!(rt; strike_then_keep(&mut sheet).is_ok() && sheet.tries() == 0);
    Ok(())
}

#[test]
fn a_wish_is_tried_out(rt: HostRuntime) -> Result<(), Fail> {
    let mut sheet = Sheet::new(rt.alloc(), 1, CounterBook)?;
    assert!(rt; sheet.line(3, 9).is_ok() && sheet.line(5, 6).is_ok());
    assert!(rt; sheet.rule(5, 2, 1, 0).is_ok());
    // line 2 is not after line 1: no code of 3 to 4 is left for line 1
    assert!(rt; matches!(try_out(&mut sheet, 1, 3, 4), Some(Settled::Barren(1))));
    assert!(rt; matches!(try_out(&mut sheet, 1, 0, 5), Some(Settled::Standing(1))));
    let window = sheet.window(1).ok().ok_or("no line")?;
    assert!(rt; window.lo() == 3 && window.hi() == 9);
    assert!(rt; matches!(sheet.state(), State::Unsettled) && sheet.tries() == 0);
    Ok(())
}
