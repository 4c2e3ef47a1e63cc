//! A source over a reader that ends, or fails.

use crate::compare::check_same;
use crate::end_calls::check_pull;
use le_rec::{EndFault, FromRead, Source};
use std::io;
use std::io::Read;
use std::process::Abort;

// Its first read fails, and each later one gives what there is room for.
#[derive(Drop)]
struct FailsOnce {
    kind: io::ErrorKind,
    has_failed: bool,
}

impl Read for FailsOnce {
    fn read(&mut self, buf: &mut [u8]) -> io::Result<usize> {
        if self.has_failed {
            return Ok(buf.len());
        }
        self.has_failed = true;
        Err(io::Error::from(self.kind))
    }
}

// Its first read gives no byte, and each later one gives what there is room for.
#[derive(Drop)]
struct GivesNoneOnce {
    has_given_none: bool,
}

impl Read for GivesNoneOnce {
    fn read(&mut self, buf: &mut [u8]) -> io::Result<usize> {
        if self.has_given_none {
            return Ok(buf.len());
        }
        self.has_given_none = true;
        Ok(0)
    }
}

// How many bytes two pulls of three give, or None where one fails.
fn two_pulls<S: Source>(source: &mut S) -> Option<usize> {
    let mut buf = [0; 3];
    let first = source.pull(&mut buf).ok()?;
    let second = source.pull(&mut buf).ok()?;
    Some(first + second)
}

#[test]
fn a_reader_is_pulled_to_its_end(rt: HostRuntime) {
    let mut source = FromRead::new(b"0 5\n".as_slice());
    check_same(&rt, two_pulls(&mut source), Some(4));
    check_pull(&rt, &mut source, &mut [0; 3], Ok(0));
    assert!(rt; !source.failed());
}

// A source that has failed, or not, and tells so after two pulls of six bytes, too.
fn check_six<S: Source>(rt: &impl Abort, source: &mut S, has_failed: bool) {
    assert!(rt; source.failed() == has_failed);
    check_same(rt, two_pulls(source), Some(6));
    assert!(rt; source.failed() == has_failed);
}

// A reader whose first read fails is read once for the pull that fails.
fn check_failed_pull(rt: &impl Abort, kind: io::ErrorKind) {
    let mut source = FromRead::new(FailsOnce {
        kind,
        has_failed: false,
    });
    assert!(rt; !source.failed());
    check_pull(rt, &mut source, &mut [0; 3], Err(EndFault));
    check_six(rt, &mut source, true);
}

#[test]
fn a_failed_read_is_a_failed_pull(rt: HostRuntime) {
    check_failed_pull(&rt, io::ErrorKind::Other);
}

#[test]
fn an_interrupted_read_is_a_failed_pull(rt: HostRuntime) {
    check_failed_pull(&rt, io::ErrorKind::Interrupted);
}

#[test]
fn a_read_of_no_bytes_is_a_pull_of_none(rt: HostRuntime) {
    let mut source = FromRead::new(GivesNoneOnce {
        has_given_none: false,
    });
    check_pull(&rt, &mut source, &mut [0; 3], Ok(0));
    check_six(&rt, &mut source, false);
}
