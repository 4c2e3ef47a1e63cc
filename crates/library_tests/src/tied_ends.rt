//! An input and an output tied to one another, over a writer that fails once.

use crate::compare::check_same;
use crate::end_calls::{check_pull, check_put};
use crate::writers::FailsOnce;
use le_rec::{EndFault, FromRead, ToWrite};
use line_io::{IoFault, TiedReader, TiedWriter};
use std::io::ErrorKind;
use std::process::Abort;

// A tied output over a writer whose first write fails.
fn failing_once(rt: &(impl Abort + AllocGlobal)) -> TiedWriter<FailsOnce> {
    let made = TiedWriter::new(rt.alloc(), FailsOnce::new(ErrorKind::Other));
    made.expect(rt, "no memory for a buffer")
}

// The flush before a read fails: so does the read, which takes nothing. The next read is one, and the end still tells that the
// output failed.
#[test]
fn a_flush_that_failed_before_a_read_is_told_at_the_end(rt: HostRuntime) {
    let output = failing_once(&rt);
    let mut out = ToWrite::new(&output);
    check_put(&rt, &mut out, b"0 5\n", Ok(4));
    let mut input = FromRead::new(TiedReader::new(b"1 5\n".as_slice(), &output));
    check_pull(&rt, &mut input, &mut [0; 8], Err(EndFault));
    check_pull(&rt, &mut input, &mut [0; 8], Ok(4));
    check_same(&rt, output.close(), Err(IoFault::Write));
}

// The flush at the end fails.
#[test]
fn a_flush_that_fails_at_the_end_is_told(rt: HostRuntime) {
    let output = failing_once(&rt);
    check_put(&rt, &mut ToWrite::new(&output), b"0 5\n", Ok(4));
    check_same(&rt, output.close(), Err(IoFault::Write));
}

// Where nothing was put, nothing fails.
#[test]
fn an_output_of_no_bytes_is_closed(rt: HostRuntime) {
    check_same(&rt, failing_once(&rt).close(), Ok(()));
}
