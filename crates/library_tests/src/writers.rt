//! A sink over a writer that is full, or fails.

use crate::compare::check_same;
use crate::end_calls::check_put;
use le_rec::{EndFault, Sink, ToWrite};
use std::io;
use std::io::Write;
use std::process::Abort;

/// A writer whose first write fails, and each later one takes all.
#[derive(Drop)]
pub(crate) struct FailsOnce {
    kind: io::ErrorKind,
    has_failed: bool,
}

impl FailsOnce {
    /// One whose first write fails with an error of this kind.
    pub(crate) fn new(kind: io::ErrorKind) -> FailsOnce {
        FailsOnce {
            kind,
            has_failed: false,
        }
    }
}

impl Write for FailsOnce {
    fn write(&mut self, bytes: &[u8]) -> io::Result<usize> {
        if self.has_failed {
            return Ok(bytes.len());
        }
        self.has_failed = true;
        Err(io::Error::from(self.kind))
    }

    fn flush(&mut self) -> io::Result<()> {
        Ok(())
    }
}

// How many bytes two puts of `bytes` take, or None where one fails.
fn two_puts<W: Sink>(sink: &mut W, bytes: &[u8]) -> Option<usize> {
    let first = sink.put(bytes).ok()?;
    let second = sink.put(bytes).ok()?;
    Some(first + second)
}

#[test]
fn a_writer_that_takes_none_has_failed(rt: HostRuntime) {
    let mut room = [0; 3];
    let mut sink = ToWrite::new(room.as_mut_slice());
    check_same(&rt, two_puts(&mut sink, b"0 5"), None);
    assert!(rt; sink.failed());
    check_put(&rt, &mut sink, b"", Ok(0));
    assert!(rt; sink.failed());
}

// A writer whose first write fails is written to once for the put that fails.
fn check_failed_put(rt: &impl Abort, kind: io::ErrorKind) {
    let mut sink = ToWrite::new(FailsOnce::new(kind));
    assert!(rt; !sink.failed());
    check_put(rt, &mut sink, b"0 5", Err(EndFault));
    assert!(rt; sink.failed());
    check_same(rt, two_puts(&mut sink, b"0 5"), Some(6));
    assert!(rt; sink.failed());
}

#[test]
fn a_failed_write_is_a_failed_put(rt: HostRuntime) {
    check_failed_put(&rt, io::ErrorKind::Other);
}

#[test]
fn an_interrupted_write_is_a_failed_put(rt: HostRuntime) {
    check_failed_put(&rt, io::ErrorKind::Interrupted);
}

#[test]
fn a_writer_takes_what_it_has_room_for(rt: HostRuntime) {
    let mut room = [0; 5];
    let mut sink = ToWrite::new(room.as_mut_slice());
    check_same(&rt, two_puts(&mut sink, b"0 5"), Some(5));
    assert!(rt; !sink.failed());
}
