//! A line that is filled from its end.

use crate::compare::check_bytes;
use line_io::TextLine;
use std::process::Abort;

// Puts bytes before the others, and a number before them.
fn put_natural(rt: &impl Abort, line: &mut TextLine, number: u64, behind: &[u8]) {
    let used = line.as_bytes().len();
    assert!(rt; used <= 100 && behind.len() <= 20);
    line.prepend_bytes(behind);
    line.prepend_natural(number);
}

fn put_integer(rt: &impl Abort, line: &mut TextLine, number: i64, behind: &[u8]) {
    let used = line.as_bytes().len();
    assert!(rt; used <= 100 && behind.len() <= 20);
    line.prepend_bytes(behind);
    line.prepend_integer(number);
}

#[test]
fn answers(rt: HostRuntime) {
    let mut line = TextLine::new();
    put_natural(&rt, &mut line, 18446744073709551615, b"\n");
    put_natural(&rt, &mut line, 0, b" ssector ");
    put_integer(&rt, &mut line, -5, b" sector ");
    put_integer(&rt, &mut line, -9223372036854775808, b" ");
    check_bytes(
        &rt,
        line.as_bytes(),
        b"-9223372036854775808 -5 sector 0 ssector 18446744073709551615\n",
    );
}
