//! Calls of a source and of a sink, as rows of a test.

use crate::compare::check_same;
use le_rec::{EndFault, Sink, Source};
use std::process::Abort;

/// A pull into a buffer answers so.
pub(crate) fn check_pull<S: Source>(
    rt: &impl Abort,
    source: &mut S,
    buf: &mut [u8],
    expected: Result<usize, EndFault>,
) {
    check_same(rt, source.pull(buf), expected);
}

/// A put of these bytes answers so.
pub(crate) fn check_put<W: Sink>(
    rt: &impl Abort,
    sink: &mut W,
    bytes: &[u8],
    expected: Result<usize, EndFault>,
) {
    check_same(rt, sink.put(bytes), expected);
}
