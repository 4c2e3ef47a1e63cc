//! Numbers of a line's content.

use crate::compare::check_same;
use line_io::{Numbers, read_numbers};
use std::process::Abort;

// A content is read as these two numbers.
fn check_pair(rt: &impl Abort, content: &[u8], values: [i32; 2], is_printed: bool) {
    let expected = Numbers { values, is_printed };
    check_same(rt, read_numbers(content), Some(expected));
}

#[test]
fn numbers_past_every_type(rt: HostRuntime) {
    let ends = [i32::MAX, -2147483647];
    check_pair(&rt, b"2147483647 -2147483647", ends, true);
    check_pair(&rt, b"2147483648 0", [i32::MAX, 0], false);
    let least = [i32::MIN; 2];
    check_pair(&rt, b"-4294967296 -2147483649", least, false);
}

#[test]
fn printed_numbers(rt: HostRuntime) {
    check_pair(&rt, b"10 -1", [10, -1], true);
    check_pair(&rt, b"0 0", [0, 0], true);
    check_pair(&rt, b"00 1", [0, 1], false);
    check_pair(&rt, b"1 -01", [1, -1], false);
    check_pair(&rt, b"1 -0", [1, 0], false);
}

#[test]
fn other_counts(rt: HostRuntime) {
    let none = Numbers {
        values: [],
        is_printed: true,
    };
    let four = Numbers {
        values: [1, -2, 3, -4],
        is_printed: true,
    };
    check_same(&rt, read_numbers(b""), Some(none));
    check_same(&rt, read_numbers(b"1 -2 3 -4"), Some(four));
    assert!(rt; read_numbers::<3>(b"1 -2 3 -4").is_none());
}
