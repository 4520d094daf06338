//! Files of the counter drive, row by row; a row is a record. The last test has a book of its own.
use crate::bare::BareBook;
use books::book::Book;
use books::counter::CounterBook;
use law::calls::{Call, Rule};
use sheet::sheet::replay::Replay;
use std::alloc::Global;
use std::process::Abort;
use std::test::Fail;
use stored::load::{load, load_in};
use stored::reload::{reload, reload_in};
use stored::store::store;
use tables::room::Room;

/// A head whose chain begins with the record of this index.
fn head(first: u8) -> [u8; 8] {
    [1, first, 1, 0, 0, 0, 0, 0]
}

/// A line from 3 to 4.
fn line(next: u8) -> [u8; 8] {
    [1, next, 3, 0, 4, 0, 0, 0]
}

/// Line 1 is not after line 2.
fn rule(next: u8) -> [u8; 8] {
    [5, next, 1, 2, 0, 0, 0, 0]
}

/// The bytes are refused by this number at this index, and a fresh sheet is left.
fn refused(rt: &impl Abort, heap: Global, bytes: &[u8], number: u8, at: u8) -> Result<(), Fail> {
    let loaded = load(heap, 7, CounterBook, bytes)?;
    let fault = loaded.fault.ok_or("no fault")?;
    assert_eq!(rt; u8::from(fault), number);
    assert_eq!(rt; fault.at(), at);
    assert_eq!(rt; loaded.sheet.number(), 7);
    assert_eq!(rt; loaded.sheet.lines(), 0);
    assert_eq!(rt; loaded.sheet.rules(), 0);
    Ok(())
}

/// The bytes are loaded, with so many lines and rules.
fn taken(rt: &impl Abort, heap: Global, bytes: &[u8], lines: u32, rules: u32) -> Result<(), Fail> {
    let loaded = load(heap, 7, CounterBook, bytes)?;
    assert!(rt; loaded.fault.is_none());
    assert_eq!(rt; loaded.sheet.number(), 7);
    assert_eq!(rt; loaded.sheet.lines(), lines);
    assert_eq!(rt; loaded.sheet.rules(), rules);
    Ok(())
}

#[test]
fn lengths(rt: HostRuntime) -> Result<(), Fail> {
    let heap = rt.alloc();
    refused(&rt, heap, &[], 10, 0)?;
    refused(&rt, heap, &[1, 0, 1, 0, 0, 0, 0], 10, 0)?;
    refused(&rt, heap, &[1, 0, 1, 0, 0, 0, 0, 0, 0], 10, 0)?;
    taken(&rt, heap, &head(0), 0, 0)
}

#[test]
fn heads(rt: HostRuntime) -> Result<(), Fail> {
    let heap = rt.alloc();
    refused(&rt, heap, &[2, 0, 1, 0, 0, 0, 0, 0], 11, 0)?;
    refused(&rt, heap, &[1, 0, 0, 0, 0, 0, 0, 0], 11, 0)?;
    refused(&rt, heap, &[1, 0, 1, 1, 0, 0, 0, 0], 11, 0)?;
    refused(&rt, heap, &[1, 0, 1, 0, 9, 0, 0, 0], 11, 0)?;
    refused(&rt, heap, &[1, 0, 1, 0, 0, 9, 0, 0], 11, 0)?;
    refused(&rt, heap, &[1, 0, 1, 0, 0, 0, 9, 0], 11, 0)?;
    refused(&rt, heap, &[1, 0, 1, 0, 0, 0, 0, 9], 11, 0)
}

#[test]
fn chains(rt: HostRuntime) -> Result<(), Fail> {
    let heap = rt.alloc();
    refused(&rt, heap, [head(9), line(0)].as_flattened(), 12, 9)?;
    refused(&rt, heap, [head(1), line(2)].as_flattened(), 12, 2)?;
    refused(&rt, heap, [head(1), line(1)].as_flattened(), 12, 1)?;
    refused(&rt, heap, [head(1), line(2), line(1)].as_flattened(), 12, 1)?;
    // a record off the chain is passed over, whatever it holds
    taken(
        &rt,
        heap,
        [head(2), [9, 9, 9, 9, 9, 9, 9, 9], line(0)].as_flattened(),
        1,
        0,
    )?;
    taken(
        &rt,
        heap,
        [head(3), rule(0), line(1), line(2)].as_flattened(),
        2,
        1,
    )
}

#[test]
fn records(rt: HostRuntime) -> Result<(), Fail> {
    let heap = rt.alloc();
    refused(
        &rt,
        heap,
        [head(1), [0, 0, 0, 0, 0, 0, 0, 0]].as_flattened(),
        13,
        1,
    )?;
    refused(
        &rt,
        heap,
        [head(1), [6, 0, 1, 2, 0, 0, 0, 0]].as_flattened(),
        13,
        1,
    )?;
    refused(
        &rt,
        heap,
        [head(1), [1, 0, 3, 0, 4, 0, 1, 0]].as_flattened(),
        13,
        1,
    )?;
    refused(
        &rt,
        heap,
        [head(1), [1, 0, 3, 0, 4, 0, 0, 1]].as_flattened(),
        13,
        1,
    )?;
    refused(
        &rt,
        heap,
        [head(1), line(2), line(3), [5, 0, 1, 2, 0, 1, 0, 0]].as_flattened(),
        13,
        3,
    )?;
    // the chain is looked at before the record, and the record before the call
    refused(
        &rt,
        heap,
        [head(1), [9, 1, 0, 0, 0, 0, 0, 0]].as_flattened(),
        13,
        1,
    )?;
    refused(
        &rt,
        heap,
        [head(2), [1, 1, 4, 0, 3, 0, 0, 0], line(1)].as_flattened(),
        1,
        1,
    )
}

#[test]
fn calls(rt: HostRuntime) -> Result<(), Fail> {
    let heap = rt.alloc();
    refused(
        &rt,
        heap,
        [head(1), [1, 0, 4, 0, 3, 0, 0, 0]].as_flattened(),
        1,
        1,
    )?;
    refused(&rt, heap, [head(1), line(2), rule(0)].as_flattened(), 2, 2)?;
    refused(
        &rt,
        heap,
        [head(1), line(2), line(3), [5, 0, 1, 2, 1, 0, 0, 0]].as_flattened(),
        2,
        3,
    )?;
    refused(
        &rt,
        heap,
        [head(1), line(2), line(3), [5, 0, 1, 1, 0, 0, 0, 0]].as_flattened(),
        3,
        3,
    )?;
    refused(&rt, heap, [head(2), line(0), rule(1)].as_flattened(), 2, 2)
}

#[test]
fn limits(rt: HostRuntime) -> Result<(), Fail> {
    let heap = rt.alloc();
    // one line record whose next index is its own, with 99 more records off the chain: the 65th line
    let mut loops = Vec::new(heap);
    loops.extend_from_slice(&head(1))?;
    for _ in 0..100 {
        loops.extend_from_slice(&line(1))?;
    }
    refused(&rt, heap, loops.as_slice(), 5, 1)?;
    // 64 lines, 128 rules, and records off the chain up to 256 in all
    let mut full = Vec::new(heap);
    full.extend_from_slice(&head(1))?;
    for next in 2..66u8 {
        full.extend_from_slice(&line(next))?;
    }
    for next in 66..193u8 {
        full.extend_from_slice(&rule(next))?;
    }
    full.extend_from_slice(&rule(0))?;
    for _ in 0..63 {
        full.extend_from_slice(&line(0))?;
    }
    assert_eq!(rt; full.len(), 2048);
    taken(&rt, heap, full.as_slice(), 64, 128)?;
    // one record more is too long
    full.extend_from_slice(&line(0))?;
    refused(&rt, heap, full.as_slice(), 10, 0)?;
    // the 129th rule
    let mut over = Vec::new(heap);
    over.extend_from_slice(&head(1))?;
    over.extend_from_slice(&line(2))?;
    over.extend_from_slice(&line(3))?;
    for next in 4..133u8 {
        over.extend_from_slice(&rule(next))?;
    }
    refused(&rt, heap, over.as_slice(), 5, 131)
}

#[test]
fn stored_and_loaded(rt: HostRuntime) -> Result<(), Fail> {
    let heap = rt.alloc();
    let bytes = [head(1), [1, 2, 232, 3, 220, 5, 0, 0], line(3), rule(0)];
    let loaded = load(heap, 7, CounterBook, bytes.as_flattened())?;
    assert!(rt; loaded.fault.is_none());
    let mut short = [9u8; 31];
    assert_eq!(rt;
        store(&loaded.sheet, &mut short).err().map(u8::from),
        Some(14)
    );
    assert_eq!(rt; short[0], 9);
    let mut out = [9u8; 40];
    assert_eq!(rt; store(&loaded.sheet, &mut out), Ok(32));
    assert!(rt; &out[..32] == bytes.as_flattened());
    assert_eq!(rt; out[32], 9);
    assert_eq!(rt; out[39], 9);
    let again = reload(heap, &loaded.sheet, &mut out).ok().ok_or("refused")?;
    assert!(rt; again.fault.is_none());
    assert_eq!(rt; again.sheet.number(), 7);
    assert_eq!(rt; again.sheet.lines(), 2);
    assert_eq!(rt; again.sheet.rules(), 1);
    Ok(())
}

/// Two lines, the first one given by its ends, that the rule of `rule` ties.
fn two_lines(lo: u32, hi: u32) -> [Call; 3] {
    let tie = Call::Rule(Rule {
        kind: 5,
        a: 1,
        b: 2,
        c: 0,
    });
    [Call::Line { lo, hi }, Call::Line { lo: 3, hi: 4 }, tie]
}

/// A store of the sheet that the calls lead to is refused by this number, however long the buffer, which is left as it is.
fn not_stored(rt: &impl Abort, heap: Global, calls: &[Call], number: u8) -> Result<(), Fail> {
    let played = Replay::of(heap, 7, CounterBook, calls)?;
    let mut out = [9u8; 40];
    let fault = store(played.sheet(), &mut out).err().ok_or("stored")?;
    assert_eq!(rt; u8::from(fault), number);
    assert_eq!(rt; out, [9u8; 40]);
    let fault = store(played.sheet(), &mut []).err().ok_or("stored")?;
    assert_eq!(rt; u8::from(fault), number);
    Ok(())
}

#[test]
fn the_order_of_a_stores_refusals(rt: HostRuntime) -> Result<(), Fail> {
    let heap = rt.alloc();
    let [a, b, tie] = two_lines(9, 9);
    not_stored(&rt, heap, &[a, b, tie, Call::Open], 15)?;
    not_stored(&rt, heap, &[a, b, tie, Call::Open, Call::Settle(10)], 15)?;
    not_stored(&rt, heap, &[a, b, tie, Call::Settle(10)], 7)
}

#[test]
fn a_store_writes_the_windows_as_they_are_now(rt: HostRuntime) -> Result<(), Fail> {
    let heap = rt.alloc();
    let [a, b, tie] = two_lines(0, 1000);
    let pinch = Call::Pinch {
        line: 1,
        lo: 2,
        hi: 800,
    };
    let played = Replay::of(heap, 7, CounterBook, &[a, b, tie, pinch, Call::Settle(10)])?;
    let mut out = [9u8; 33];
    assert_eq!(rt; store(played.sheet(), &mut out), Ok(32));
    let want = [head(1), [1, 2, 2, 0, 4, 0, 0, 0], line(3), rule(0)];
    assert!(rt; &out[..32] == want.as_flattened());
    assert_eq!(rt; out[32], 9);
    Ok(())
}

#[test]
fn the_first_of_two_faults(rt: HostRuntime) -> Result<(), Fail> {
    let heap = rt.alloc();
    // the length before the head
    refused(&rt, heap, &[2, 9, 1], 10, 0)?;
    // the head before the chain
    refused(&rt, heap, &[1, 9, 1, 0, 0, 0, 0, 1], 11, 0)?;
    // an earlier record before a later one, whichever lies first in the file
    refused(
        &rt,
        heap,
        [head(2), [9, 0, 0, 0, 0, 0, 0, 0], [1, 1, 4, 0, 3, 0, 0, 0]].as_flattened(),
        1,
        2,
    )?;
    // an unused byte before the call that the record stands for
    refused(
        &rt,
        heap,
        [head(1), [1, 0, 4, 0, 3, 0, 0, 9]].as_flattened(),
        13,
        1,
    )?;
    // a line that the rule names is missing, before two places that are the same
    refused(
        &rt,
        heap,
        [head(1), [5, 0, 1, 1, 0, 0, 0, 0]].as_flattened(),
        2,
        1,
    )
}

#[test]
fn refused_stores(rt: HostRuntime) -> Result<(), Fail> {
    let heap = rt.alloc();
    // line 1 must not be after line 2, and is
    let bytes = [head(1), [1, 2, 9, 0, 9, 0, 0, 0], line(3), rule(0)];
    let mut loaded = load(heap, 7, CounterBook, bytes.as_flattened())?;
    assert!(rt; loaded.fault.is_none());
    let _ = loaded.sheet.settle(10);
    let mut out = [9u8; 8];
    assert_eq!(rt; store(&loaded.sheet, &mut out).err().map(u8::from), Some(7));
    assert_eq!(rt; out[0], 9);
    Ok(())
}

#[test]
fn stored_and_loaded_under_another_number(rt: HostRuntime) -> Result<(), Fail> {
    let heap = rt.alloc();
    let bytes = [head(1), [1, 2, 232, 3, 220, 5, 0, 0], line(3), rule(0)];
    let loaded = load_in(Room::reserve(heap)?, 7, CounterBook, bytes.as_flattened());
    assert!(rt; loaded.fault.is_none());
    let mut out = [9u8; 40];
    let again = reload_in(Room::reserve(heap)?, 8, &loaded.sheet, &mut out)
        .ok()
        .ok_or("refused")?;
    assert!(rt; again.fault.is_none());
    assert_eq!(rt; again.sheet.number(), 8);
    assert_eq!(rt; again.sheet.lines(), 2);
    assert_eq!(rt; again.sheet.rules(), 1);
    assert!(rt; &out[0..32] == bytes.as_flattened());
    assert_eq!(rt; out[32], 9);
    Ok(())
}

#[test]
fn another_book(rt: HostRuntime) -> Result<(), Fail> {
    let heap = rt.alloc();
    let bare = [1, 1, 9, 3, 0, 0, 0, 0];
    // the book has no kind of rule
    let bytes = [bare, line(2), line(3), rule(0)];
    let loaded = load_in(Room::reserve(heap)?, 7, BareBook, bytes.as_flattened());
    let fault = loaded.fault.ok_or("no fault")?;
    assert_eq!(rt; (u8::from(fault), fault.at()), (4, 3));
    assert_eq!(rt; loaded.sheet.lines(), 0);
    // and its own top
    let high = [bare, line(2), [1, 0, 3, 0, 101, 0, 0, 0]];
    let loaded = load_in(Room::reserve(heap)?, 7, BareBook, high.as_flattened());
    let fault = loaded.fault.ok_or("no fault")?;
    assert_eq!(rt; (u8::from(fault), fault.at()), (1, 2));
    // and its own drive and mode
    let counter = [head(1), line(0)];
    let loaded = load_in(Room::reserve(heap)?, 7, BareBook, counter.as_flattened());
    let fault = loaded.fault.ok_or("no fault")?;
    assert_eq!(rt; (u8::from(fault), fault.at()), (11, 0));
    Ok(())
}
