//! An input that fails, or is longer than its limit.

use crate::compare::{check_bytes, check_same};
use crate::sample::base;
use le_rec::{Sink, Source};
use look_engines::{MAX_READ, RunFault, points, read_all};
use map_level::Reading;
use std::alloc::Global;
use std::process::Abort;
use test_refusals::{SliceSink, SliceSource};

const INPUT: &[u8] = b"1 5\n0 5\n-1 5\n";

const TEXT: &[u8] = b"1 5 sector 0 ssector 0\n0 5 sector 1 ssector 1\n-1 5 sector 1 ssector 1\n";

// What `points` answers over these ends.
fn run<S: Source, W: Sink>(
    rt: &impl Abort,
    alloc: Global,
    files: &[Vec<u8>],
    source: &mut S,
    limit: u64,
    out: &mut W,
) -> Result<(), RunFault> {
    assert!(rt; files.len() <= 64 && limit <= MAX_READ);
    let fresh = !source.failed() && !out.failed();
    assert!(rt; fresh);
    points(alloc, files, b"E1M1", Reading::Signed, source, limit, out)
}

// The sample level's file, as the only one.
fn files(rt: &(impl Abort + AllocGlobal)) -> Vec<Vec<u8>> {
    vec![in rt.alloc(); base(rt)].expect(rt, "no memory for the files")
}

// That `points` over the sample level ends so, and what it has written into so much room.
fn check_end<S: Source + Drop>(
    rt: &(impl Abort + AllocGlobal),
    mut source: S,
    limit: u64,
    room: &mut [u8],
    ended: Result<(), RunFault>,
    text: &[u8],
) {
    let mut out = SliceSink::new(room);
    let result = run(rt, rt.alloc(), &files(rt), &mut source, limit, &mut out);
    check_same(rt, result, ended);
    check_bytes(rt, out.taken(), text);
}

const LINE: &[u8] = b"1 5 sector 0 ssector 0\n";

fn failing_write(rt: &(impl Abort + AllocGlobal)) {
    let source = SliceSource::new(b"0 5\n");
    let text = b"0 5 sector";
    check_end(
        rt,
        source,
        MAX_READ,
        &mut [0; 10],
        Err(RunFault::Write),
        text,
    );
}

fn failing_read(rt: &(impl Abort + AllocGlobal)) {
    let source = SliceSource::new(b"1 5\n").failing_at(2);
    check_end(
        rt,
        source,
        MAX_READ,
        &mut [0; 100],
        Err(RunFault::Read),
        LINE,
    );
}

fn input_too_long(rt: &(impl Abort + AllocGlobal)) {
    let source = SliceSource::new(b"1 5\n0 5");
    check_end(rt, source, 4, &mut [0; 100], Err(RunFault::TooLong), LINE);
}

fn read_whole(rt: &(impl Abort + AllocGlobal)) {
    let bytes = read_all(rt.alloc(), &mut SliceSource::new(b"1 5\n"), 4);
    let bytes = bytes.expect(rt, "an input within the limit");
    check_bytes(rt, bytes.as_slice(), b"1 5\n");
}

fn read_too_long(rt: &(impl Abort + AllocGlobal)) {
    let fault = read_all(rt.alloc(), &mut SliceSource::new(b"1 5\n"), 3).err();
    check_same(rt, fault, Some(RunFault::TooLong));
}

#[test]
fn failing_ends(rt: HostRuntime) {
    failing_write(&rt);
    failing_read(&rt);
    input_too_long(&rt);
    read_whole(&rt);
    read_too_long(&rt);
}

// That `points` answers an input so, one byte a call.
fn check_answered(rt: &(impl Abort + AllocGlobal), input: &[u8], text: &[u8]) {
    let source = SliceSource::new(input).at_most(1);
    check_end(rt, source, MAX_READ, &mut [0; 200], Ok(()), text);
}

const FORMS: &[u8] = b"x\n16384 0\n0  5\n1 2 3\n\n007 -0\r\n+1 1\n";

const ANSWERS: &[u8] = b"refused: form\nrefused: range\nrefused: form\nrefused: form\n\
refused: form\n7 0 sector 0 ssector 0\nrefused: form\n";

#[test]
fn line_forms(rt: HostRuntime) {
    check_answered(&rt, FORMS, ANSWERS);
    check_answered(&rt, b"", b"");
    check_answered(&rt, b"1 5", b"1 5 sector 0 ssector 0\n");
}

// How many bytes of TEXT are written where call `n` fails.
fn answered(n: u8) -> usize {
    match n {
        0..5 => 0,
        5..9 => 23,
        9..14 => 46,
        _ => 70,
    }
}

// A reader of one byte a call that fails at call `n`.
fn check_failing_reader(rt: &(impl Abort + AllocGlobal), files: &[Vec<u8>], n: u8) {
    let mut room = [0; 100];
    let mut out = SliceSink::new(&mut room);
    let mut source = SliceSource::new(INPUT).at_most(1).failing_at(u32::from(n));
    let result = run(rt, rt.alloc(), files, &mut source, MAX_READ, &mut out);
    check_same(rt, result, Err(RunFault::Read));
    check_same(rt, Some(out.taken()), TEXT.get(..answered(n)));
    check_same(rt, source.left().len() + usize::from(n), INPUT.len() + 1);
}

#[test]
fn reader_fails(rt: HostRuntime) {
    let files = files(&rt);
    for n in 1..15 {
        check_failing_reader(&rt, &files, n);
    }
}
