//! The command `lmp` over ends that fail.

use crate::compare::{check_bytes, check_same};
use demo_lump::DemoFault;
use le_rec::{Sink, Source};
use look_engines::{MAX_READ, RunFault, lmp};
use std::process::Abort;
use test_refusals::{SliceSink, SliceSource};

/// Two commands of one player, the marker and one byte behind it.
pub const TWO: [u8; 23] = [
    109, 3, 1, 1, 0, 0, 0, 0, 0, 1, 0, 0, 0, 25, 0, 0, 0, 206, 128, 255, 128, 128, 7,
];

/// The listing of `TWO`.
pub const TEXT: &[u8] = b"demo version 109 skill 3 episode 1 map 1 deathmatch 0 respawn 0 fast 0 \
nomonsters 0 viewpoint 0 players 1 0 0 0\n0 1 25 0 0 00\n1 1 -50 -128 255 80\ntics 2 odd 0 after 1\n";

// The lengths of its header's line, of its first two lines, and of its first three.
const LINES: [usize; 3] = [112, 126, 146];

// What `lmp` answers over these ends.
fn list<S: Source, W: Sink>(
    rt: &impl Abort,
    source: &mut S,
    limit: u64,
    out: &mut W,
) -> Result<(), RunFault> {
    assert!(rt; limit <= MAX_READ);
    let fresh = !source.failed() && !out.failed();
    assert!(rt; fresh);
    lmp(source, limit, out)
}

// That `lmp` answers so on the bytes, one a pull, and writes this text.
fn lists(rt: &impl Abort, bytes: &[u8], limit: u64, text: &[u8], wanted: Result<(), RunFault>) {
    let mut room = [0; 200];
    let mut out = SliceSink::new(&mut room);
    let mut source = SliceSource::new(bytes).at_most(1);
    let result = list(rt, &mut source, limit, &mut out);
    check_same(rt, result, wanted);
    check_bytes(rt, out.taken(), text);
}

#[test]
fn lmp_cut(rt: HostRuntime) {
    let lines = &TEXT[..LINES[2]];
    lists(&rt, &TWO, 22, lines, Err(RunFault::TooLong));
    lists(&rt, &TWO, 23, TEXT, Ok(()));
    let cut = RunFault::Demo(DemoFault::NoMarker(21));
    lists(&rt, &TWO[..21], 100, lines, Err(cut));
}

// How many bytes of the listing are written where pull `n` fails.
fn listed_before(n: u8) -> usize {
    match n {
        1..=13 => 0,
        14..=17 => LINES[0],
        18..=21 => LINES[1],
        _ => LINES[2],
    }
}

// A reader of one byte a pull that fails at pull `n`.
fn check_failing_reader(rt: &impl Abort, n: u8) {
    let mut room = [0; 200];
    let mut out = SliceSink::new(&mut room);
    let mut source = SliceSource::new(&TWO).at_most(1).failing_at(u32::from(n));
    let result = list(rt, &mut source, 100, &mut out);
    check_same(rt, result, Err(RunFault::Read));
    check_same(rt, Some(out.taken()), TEXT.get(..listed_before(n)));
    check_same(rt, source.left().len() + usize::from(n), TWO.len() + 1);
}

#[test]
fn lmp_reader_fails(rt: HostRuntime) {
    for n in 1..25 {
        check_failing_reader(&rt, n);
    }
}

// How many bytes of `TWO` are left when byte `written` of its listing is to be written.
fn left_before(written: usize) -> usize {
    if written < LINES[0] {
        10
    } else if written < LINES[1] {
        6
    } else if written < LINES[2] {
        2
    } else {
        0
    }
}

// A writer that has room for `n` bytes, and takes at most seven a put.
fn check_failing_writer(rt: &impl Abort, n: u8) {
    let count = usize::from(n);
    let mut room = [0; 256];
    let mut out = SliceSink::new(&mut room[..count]).at_most(7);
    let mut source = SliceSource::new(&TWO);
    let result = list(rt, &mut source, 100, &mut out);
    check_same(rt, result, Err(RunFault::Write));
    check_same(rt, Some(out.taken()), TEXT.get(..count));
    check_same(rt, source.left().len(), left_before(count));
}

#[test]
fn writer_fails(rt: HostRuntime) {
    for n in 0..167 {
        check_failing_writer(&rt, n);
    }
}
