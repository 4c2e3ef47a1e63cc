//! Findings that tests expect.

use crate::compare::check_same;
use map_level::{Code, Finding, Findings};
use std::alloc::Allocator;
use std::process::Abort;

/// The code and the index of a finding.
pub type Pair = (Code, u32);

/// The findings of `sample::base_not_reached`.
pub const NOT_REACHED: [Pair; 4] = [
    (Code::F14, 0),
    (Code::F14, 1),
    (Code::F16, 2),
    (Code::F16, 3),
];

/// The findings of the sample level with the linedef `sample::LINE_WITHOUT_SIDE_1`.
pub const SIDE_MISSING: [Pair; 2] = [(Code::F9, 1), (Code::N3, 0)];

/// A finding of a code and an index.
pub fn finding(code: Code, index: u32) -> Finding {
    Finding { code, index }
}

/// Checks that findings are these.
pub fn check_list<A: Allocator>(rt: &impl Abort, found: &Findings<A>, want: &[Pair]) {
    check_same(rt, found.len(), want.len());
    for (i, (code, index)) in want.iter().enumerate() {
        check_same(rt, (i, found.get(i)), (i, Some(finding(*code, *index))));
    }
    check_same(rt, found.get(want.len()), None);
}
