//! Lines answered by a command that tells their content's length.
ghost use Rattle.std.specs.Prelude.{◌≡◌, ℕ, List, ◌++◌, ◌∷◌, [], length, false, None, decimal};

use crate::compare::{check_bytes, check_same};
use itoa::Buffer;
use le_rec::{EndFault, Sink, Source};
use line_io::{IoFault, LineCommand, MAX_READ, answer_lines, emit, read_all};
use std::alloc::Global;
use std::cell::Cell;
use std::process::Abort;
use std::test::Fail;
use test_refusals::{Refusing, RepeatSource, SliceSink, SliceSource};

#[derive(Drop)]
struct Length;

impl LineCommand for Length {
    ghost Answers = { λ _ answer. (content : List ℕ)
        → answer content ≡ decimal (length content) ++ 10 ∷ [] };

    ghost takes_memory = { false };

    fn reply<W: Sink>(&mut self, content: &[u8], out: &mut W) -> Result<(), IoFault> {
        let mut buffer = Buffer::new();
        emit(out, buffer.format(content.len()).as_bytes())?;
        emit(out, b"\n")
    }
}

const INPUT: &[u8] = b"0 5\n\n007 -0\r\n\r\nlast";

const TEXT: &[u8] = b"3\n0\n6\n0\n4\n";

// How a run over a source up to a limit ends.
fn answer<S: Source, W: Sink>(
    rt: &impl Abort,
    source: &mut S,
    limit: u64,
    out: &mut W,
) -> Result<(), IoFault> {
    let fresh = !source.failed() && !out.failed();
    assert!(rt; fresh && limit <= MAX_READ);
    answer_lines(&mut Length, source, limit, out)
}

// An end has failed exactly where the run ended by that fault.
fn check_failed(rt: &impl Abort, ended: Result<(), IoFault>, fault: IoFault, failed: bool) {
    assert!(rt; failed == (ended == Err(fault)));
}

// What becomes of a source: how the run ends, what it writes, and how many bytes it leaves.
#[derive(Clone, Copy)]
struct Ended<'a> {
    end: Result<(), IoFault>,
    text: &'a [u8],
    left: usize,
}

// Compares a run over a source up to a limit, whose output takes at most so many bytes a call and fails at call `failing`,
// with what is expected.
fn check_run(
    rt: &impl Abort,
    mut input: SliceSource<'_>,
    limit: u64,
    most: usize,
    failing: u32,
    expected: Ended<'_>,
) {
    assert!(rt; 0 < most);
    let mut room = [0; 100];
    let mut out = SliceSink::new(&mut room).at_most(most).failing_at(failing);
    let ended = answer(rt, &mut input, limit, &mut out);
    check_same(rt, ended, expected.end);
    check_bytes(rt, out.taken(), expected.text);
    check_same(rt, input.left().len(), expected.left);
    check_failed(rt, ended, IoFault::Read, input.failed());
    check_failed(rt, ended, IoFault::Write, out.failed());
}

// The lines of INPUT, pulled and put at most so many bytes a call.
fn check_answered(rt: &impl Abort, most: usize) {
    assert!(rt; 0 < most);
    let input = SliceSource::new(INPUT).at_most(most);
    check_run(rt, input, MAX_READ, most, 0, whole());
}

// What becomes of INPUT where nothing fails.
fn whole() -> Ended<'static> {
    Ended {
        end: Ok(()),
        text: TEXT,
        left: 0,
    }
}

#[test]
fn lines_are_answered(rt: HostRuntime) {
    check_answered(&rt, 1);
    check_answered(&rt, 2);
    check_answered(&rt, 3);
    check_answered(&rt, 100);
}

// How many lines of INPUT end within its first `count` bytes, as the length of their answers.
fn answered(count: usize) -> usize {
    match count {
        0..4 => 0,
        4 => 2,
        5..13 => 4,
        13..15 => 6,
        _ => 8,
    }
}

// What becomes of INPUT where its lines within `count` bytes are answered and so many are pulled.
fn cut(fault: IoFault, count: usize, pulled: usize) -> Ended<'static> {
    Ended {
        end: Err(fault),
        text: &TEXT[..answered(count).min(TEXT.len())],
        left: INPUT.len().saturating_sub(pulled),
    }
}

fn check_failing_read(rt: &impl Abort, pulled: u8) {
    let failing = u32::from(pulled) + 1;
    let input = SliceSource::new(INPUT).at_most(1).failing_at(failing);
    let count = usize::from(pulled);
    let expected = cut(IoFault::Read, count, count);
    check_run(rt, input, MAX_READ, 100, 0, expected);
}

#[test]
fn failing_reads(rt: HostRuntime) {
    for pulled in 0..20 {
        check_failing_read(&rt, pulled);
    }
}

// How many bytes of INPUT are left, pulled one by one, when byte `written` of TEXT is to be written.
fn left_before(written: usize) -> usize {
    match written {
        0..2 => 15,
        2..4 => 14,
        4..6 => 6,
        6..8 => 4,
        _ => 0,
    }
}

fn check_failing_write(rt: &impl Abort, written: u8) {
    let count = usize::from(written);
    let expected = Ended {
        end: Err(IoFault::Write),
        text: &TEXT[..count.min(TEXT.len())],
        left: left_before(count),
    };
    let input = SliceSource::new(INPUT).at_most(1);
    check_run(rt, input, MAX_READ, 1, u32::from(written) + 1, expected);
}

#[test]
fn failing_writes(rt: HostRuntime) {
    for written in 0..10 {
        check_failing_write(&rt, written);
    }
}

// A source of one byte a pull, which fails where an ended line isn't
// answered, and the sink of the answers.
#[derive(Drop)]
struct Waiting<'a> {
    rest: &'a [u8],
    ended: u32,
    answered: &'a Cell<u32>,
    failed: bool,
}

#[derive(Drop)]
struct Counting<'a> {
    answered: &'a Cell<u32>,
}

impl Source for Waiting<'_> {
    ghost state = { λ s. record { left = None; failed = s.failed } };

    fn pull(&mut self, buf: &mut [u8]) -> Result<usize, EndFault> {
        if self.answered.get() != self.ended {
            self.failed = true;
            return Err(EndFault);
        }
        let rest = self.rest;
        if rest.is_empty() || buf.is_empty() {
            return Ok(0);
        }
        buf[0] = rest[0];
        self.ended = self.ended.wrapping_add(u32::from(rest[0] == 10));
        self.rest = &rest[1..];
        Ok(1)
    }

    fn failed(&self) -> bool {
        self.failed
    }
}

impl Sink for Counting<'_> {
    ghost state = { λ _. record { taken = None; failed = false } };

    fn put(&mut self, bytes: &[u8]) -> Result<usize, EndFault> {
        for byte in bytes {
            let answered = self.answered.get();
            self.answered
                .set(answered.wrapping_add(u32::from(*byte == 10)));
        }
        Ok(bytes.len())
    }

    fn failed(&self) -> bool {
        false
    }
}

#[test]
fn each_line_is_answered_before_the_next_pull(rt: HostRuntime) {
    let answered = Cell::new(0);
    let mut input = Waiting {
        rest: INPUT,
        ended: 0,
        answered: &answered,
        failed: false,
    };
    let mut out = Counting {
        answered: &answered,
    };
    let ended = answer(&rt, &mut input, MAX_READ, &mut out);
    check_same(&rt, ended, Ok(()));
    check_same(&rt, answered.get(), 5);
}

fn check_limit(rt: &impl Abort, limit: u8) {
    let count = usize::from(limit);
    let expected = cut(IoFault::TooLong, count, count + 1);
    check_run(
        rt,
        SliceSource::new(INPUT),
        u64::from(limit),
        100,
        0,
        expected,
    );
}

#[test]
fn limits(rt: HostRuntime) {
    for limit in 0..19 {
        check_limit(&rt, limit);
    }
    check_run(&rt, SliceSource::new(INPUT), 19, 100, 0, whole());
}

#[test]
fn endless_reader(rt: HostRuntime) {
    let mut room = [0; 100];
    let mut out = SliceSink::new(&mut room);
    let ended = answer(&rt, &mut RepeatSource { byte: b'1' }, 64, &mut out);
    check_same(&rt, ended, Err(IoFault::TooLong));
    assert!(rt; out.taken().is_empty());
}

// Lines of 8189, 5, 8187 and 1 bytes.
fn four_lines() -> [u8; 16386] {
    let mut input = [b'1'; 16386];
    input[8189] = 10;
    input[8195] = 10;
    input[16383] = 10;
    input[16385] = 10;
    input
}

#[test]
fn lines_across_blocks(rt: HostRuntime) {
    let input = four_lines();
    let mut room = [0; 100];
    let mut out = SliceSink::new(&mut room);
    let mut source = SliceSource::new(&input).at_most(8192);
    let ended = answer(&rt, &mut source, MAX_READ, &mut out);
    check_same(&rt, ended, Ok(()));
    check_bytes(&rt, out.taken(), b"refused: form\n5\nrefused: form\n1\n");
}

// Compares why an input of `1 5` and its line's end isn't read whole, at most so many bytes a call, with what is expected.
fn check_fault(rt: &impl Abort, alloc: Global, most: usize, limit: u64, expected: Option<IoFault>) {
    assert!(rt; 0 < most && limit <= MAX_READ);
    let mut input = SliceSource::new(b"1 5\n").at_most(most);
    check_same(rt, read_all(alloc, &mut input, limit).err(), expected);
}

#[test]
fn whole_inputs(rt: HostRuntime) {
    check_fault(&rt, rt.alloc(), 1, 4, None);
    check_fault(&rt, rt.alloc(), 3, 4, None);
    check_fault(&rt, rt.alloc(), 100, 4, None);
    check_fault(&rt, rt.alloc(), 100, 3, Some(IoFault::TooLong));
}

// An input that fails at a call after so many bytes, one a call, leaves the others.
fn check_failing_call(rt: &impl Abort, alloc: Global, pulled: u8) {
    let failing = u32::from(pulled) + 1;
    let mut input = SliceSource::new(b"1 5\n").at_most(1).failing_at(failing);
    let fault = read_all(alloc, &mut input, 4).err();
    check_same(rt, fault, Some(IoFault::Read));
    assert!(rt; input.failed());
    check_bytes(rt, input.left(), left_of(b"1 5\n", pulled));
}

// The bytes behind the first `pulled`.
fn left_of(bytes: &[u8], pulled: u8) -> &[u8] {
    &bytes[bytes.len().min(usize::from(pulled))..]
}

#[test]
fn whole_inputs_that_fail(rt: HostRuntime) {
    for pulled in 0..5 {
        check_failing_call(&rt, rt.alloc(), pulled);
    }
}

// Whether reading the bytes met growth `n` refused.
fn is_refused(rt: &(impl Abort + AllocGlobal), bytes: &[u8], n: u64) -> bool {
    let heap = Refusing::new(rt.alloc(), n);
    let mut input = SliceSource::new(bytes);
    match read_all(&heap, &mut input, MAX_READ) {
        Ok(whole) => check_bytes(rt, whole.as_slice(), bytes),
        Err(fault) => {
            assert!(rt; heap.has_refused() && !input.failed());
            check_same(rt, fault, IoFault::Memory);
            return true;
        }
    }
    assert!(rt; !heap.has_refused());
    false
}

#[test]
fn whole_inputs_without_memory(rt: HostRuntime) -> Result<(), Fail> {
    let bytes = Vec::from_elem(rt.alloc(), b'1', 200_000)?;
    for growth in 1..=3 {
        assert!(rt; is_refused(&rt, &bytes, growth));
    }
    assert!(rt; !is_refused(&rt, &bytes, 4));
    Ok(())
}
