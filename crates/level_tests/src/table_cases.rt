//! Findings on REJECT and BLOCKMAP, also with each growth refused in turn.

use crate::compare::check_same;
use crate::findings::{check_list, finding};
use crate::opening::level_of;
use crate::sample::{LINE_WITHOUT_SIDE_1, base, base_not_reached, base_with};
use map_level::{Code, Finding, Level};
use map_tables::table_findings;
use std::process::Abort;
use test_refusals::Refusing;

const REJECT: usize = 9;

const BLOCKMAP: usize = 10;

// Whether the findings of the level met growth `n` refused; else they are these.
fn is_refused(
    rt: &(impl Abort + AllocGlobal),
    level: &Level<'_>,
    n: u64,
    expected: &[Finding],
) -> bool {
    let heap = Refusing::new(rt.alloc(), n);
    let result = table_findings(&heap, level);
    assert!(rt; result.is_err() == heap.has_refused());
    if let Ok(found) = result {
        check_same(rt, found.as_slice(), expected);
    }
    heap.has_refused()
}

// The growths from 0 to 2 that the level E1M1 of a file meets refused: 0 counts and refuses none.
fn check_growths(
    rt: &(impl Abort + AllocGlobal),
    file: Vec<u8>,
    refused: [bool; 3],
    expected: &[Finding],
) {
    let level = level_of(rt, &file);
    assert!(rt; is_refused(rt, &level, 0, expected) == refused[0]);
    assert!(rt; is_refused(rt, &level, 1, expected) == refused[1]);
    assert!(rt; is_refused(rt, &level, 2, expected) == refused[2]);
}

// A BLOCKMAP of two blocks with a word for the first one's offset, which is past its words.
const ONE_OFFSET: [u8; 10] = [248, 255, 248, 255, 1, 0, 2, 0, 7, 0];

#[test]
fn findings_of_both_tables(rt: HostRuntime) {
    let file = base_with(&rt, &[(REJECT, &[]), (BLOCKMAP, &ONE_OFFSET)]);
    let found = table_findings(rt.alloc(), &level_of(&rt, &file));
    let expected = [(Code::N8, 0), (Code::N9, 0), (Code::N10, 0)];
    check_list(
        &rt,
        &found.expect(&rt, "no memory for the findings"),
        &expected,
    );
}

#[test]
fn growth_refused(rt: HostRuntime) {
    let file = base_with(&rt, &[(REJECT, &[])]);
    check_growths(&rt, file, [false, true, false], &[finding(Code::N8, 0)]);
}

#[test]
fn growth_refused_without_findings(rt: HostRuntime) {
    check_growths(&rt, base(&rt), [false; 3], &[]);
    check_growths(&rt, base_not_reached(&rt), [false; 3], &[]);
    let side_missing = base_with(&rt, &[(2, &LINE_WITHOUT_SIDE_1)]);
    check_growths(&rt, side_missing, [false; 3], &[]);
}
