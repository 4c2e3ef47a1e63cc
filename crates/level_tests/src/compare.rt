//! Comparing what is found with what is expected. A row is a call, which knows nothing of what it compares.

use std::fmt::Debug;
use std::process::Abort;

pub(crate) fn check_same<T: PartialEq + Debug + Drop>(rt: &impl Abort, found: T, expected: T) {
    assert_eq!(rt; found, expected);
}

pub(crate) fn check_bytes(rt: &impl Abort, found: &[u8], expected: &[u8]) {
    check_same(rt, found, expected);
}
