//! Demos from sources that give one byte a pull, or fail.

ghost use Rattle.std.specs.Prelude.{◌≡◌, ◌≤◌, false, None};
ghost use Rattle.test_refusals.specs.SliceSource.{pull_failed};

use crate::compare::{check_bytes, check_same};
use crate::demos::{LONG, TWO, command_of, header_of};
use demo_lump::{Command, Demo, DemoFault, DemoReader, Header, MAX_READ, StreamFault};
use std::process::Abort;
use test_refusals::SliceSource;

// A reader with its source, of which a test is to know nothing before it asks.
#[derive(Drop)]
struct Run<'a> {
    source: SliceSource<'a>,
    reader: DemoReader,
    ghost sound: { reader.fault ≡ None → pull_failed source ≡ false },
}

impl<'a> Run<'a> {
    fn new(source: SliceSource<'a>, limit: u64) -> Run<'a>
        requires limit { limit ≤ MAX_READ }
        requires sound { pull_failed source ≡ false }
    {
        Run {
            source,
            reader: DemoReader::new(limit),
        }
    }

    // What the reader answers from the source, and what is left of that.
    fn check_header(&mut self, rt: &impl Abort, expected: Result<Header, StreamFault>) {
        check_same(rt, self.reader.header(&mut self.source), expected);
    }

    fn check_next(&mut self, rt: &impl Abort, expected: Result<Option<Command>, StreamFault>) {
        check_same(rt, self.reader.next(&mut self.source), expected);
    }

    fn check_after(&mut self, rt: &impl Abort, expected: Result<u64, StreamFault>) {
        assert!(rt; self.reader.ended());
        check_same(rt, self.reader.after(&mut self.source), expected);
    }

    fn check_left(&self, rt: &impl Abort, expected: &[u8]) {
        check_bytes(rt, self.source.left(), expected);
    }

    // Why the next three pieces, or what is behind the marker, can't be read.
    fn fault(&mut self) -> Option<StreamFault> {
        for _ in 0..3 {
            if let Err(fault) = self.reader.next(&mut self.source) {
                return Some(fault);
            }
        }
        if self.reader.ended() {
            return self.reader.after(&mut self.source).err();
        }
        None
    }

    // The whole demo can't be read, and from then on no part of it can be.
    fn check_fault(&mut self, rt: &impl Abort, fault: StreamFault) {
        check_same(rt, self.fault(), Some(fault));
        check_same(rt, self.fault(), Some(fault));
        self.check_header(rt, Err(fault));
    }
}

#[test]
fn reader_byte_by_byte(rt: HostRuntime) {
    let mut run = Run::new(SliceSource::new(&TWO).at_most(1), 100);
    run.check_header(&rt, Ok(header_of(109)));
    run.check_left(&rt, &TWO[13..]);
    run.check_header(&rt, Ok(header_of(109)));
    run.check_next(&rt, Ok(Some(command_of(25, 0, 0, 0))));
    run.check_next(&rt, Ok(Some(command_of(-50, -128, 255, 128))));
    assert!(rt; !run.reader.ended());
    run.check_next(&rt, Ok(None));
    run.check_next(&rt, Ok(None));
    run.check_left(&rt, &[7]);
    run.check_after(&rt, Ok(1));
    run.check_after(&rt, Ok(1));
    run.check_header(&rt, Ok(header_of(109)));
}

#[test]
fn reader_of_15_bytes(rt: HostRuntime) {
    let mut run = Run::new(SliceSource::new(&TWO[..15]).at_most(1), 100);
    let cut = StreamFault::Demo(DemoFault::NoMarker(13));
    run.check_header(&rt, Ok(header_of(109)));
    run.check_next(&rt, Err(cut));
    run.check_next(&rt, Err(cut));
    run.check_header(&rt, Err(cut));
}

#[test]
fn reader_with_limit_13(rt: HostRuntime) {
    let mut run = Run::new(SliceSource::new(&TWO).at_most(1), 13);
    run.check_header(&rt, Ok(header_of(109)));
    run.check_next(&rt, Err(StreamFault::TooLong));
    run.check_next(&rt, Err(StreamFault::TooLong));
}

#[test]
fn demo_111_byte_by_byte(rt: HostRuntime) {
    let mut run = Run::new(SliceSource::new(&LONG).at_most(1), 24);
    run.check_next(&rt, Ok(Some(command_of(25, 0, 4660, 0))));
    run.check_next(&rt, Ok(Some(command_of(-50, -128, 65535, 128))));
    run.check_next(&rt, Ok(None));
    run.check_after(&rt, Ok(0));
}

// Why the first bytes of the demo are no demo.
fn fault_of_cut(length: usize) -> Option<DemoFault> {
    match length {
        0 => Some(DemoFault::Empty),
        1..=12 => Some(DemoFault::ShortHeader),
        13..=16 => Some(DemoFault::NoMarker(13)),
        17..=20 => Some(DemoFault::NoMarker(17)),
        21 => Some(DemoFault::NoMarker(21)),
        _ => None,
    }
}

// So many bytes of the demo are refused, read at once and one by one, or are a demo with nothing behind its marker.
fn check_cut(rt: &impl Abort, length: usize) {
    let bytes = TWO.get(..length).expect(rt, "as many bytes");
    let mut run = Run::new(SliceSource::new(bytes).at_most(1), 100);
    check_same(rt, Demo::read(bytes).err(), fault_of_cut(length));
    match fault_of_cut(length) {
        Some(fault) => run.check_fault(rt, StreamFault::Demo(fault)),
        None => {
            check_same(rt, run.fault(), None);
            run.check_after(rt, Ok(0));
        }
    }
}

#[test]
fn demo_cut(rt: HostRuntime) {
    for length in 0..23 {
        check_cut(&rt, length);
    }
}

#[test]
fn lmp_reader_fails(rt: HostRuntime) {
    for call in 1..25 {
        let source = SliceSource::new(&TWO).at_most(1).failing_at(call);
        Run::new(source, 100).check_fault(&rt, StreamFault::Read);
    }
}

#[test]
fn refused_version_is_read_alone(rt: HostRuntime) {
    let mut run = Run::new(SliceSource::new(&[112, 3, 1, 1]), 100);
    let refused = StreamFault::Demo(DemoFault::Version(112));
    run.check_next(&rt, Err(refused));
    run.check_left(&rt, &[3, 1, 1]);
}
