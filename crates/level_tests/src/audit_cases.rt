//! Audits of levels, with each growth refused in turn.

use crate::compare::check_same;
use crate::findings::{NOT_REACHED, Pair, SIDE_MISSING, finding};
use crate::opening::level_of;
use crate::sample::{LINE_WITHOUT_SIDE_1, base, base_not_reached, base_with};
use map_audit::{Refused, Report, accept, audit};
use map_level::{Code, Level};
use map_tree::Tree;
use std::alloc::Allocator;
use std::process::Abort;
use test_refusals::Refusing;

// A report has these findings, so many of them faults.
fn check_report<A: Allocator>(
    rt: &impl Abort,
    report: &Report<A>,
    expected: &[Pair],
    faults: usize,
) {
    check_same(rt, report.len(), expected.len());
    for (i, (code, index)) in expected.iter().enumerate() {
        check_same(rt, (i, report.get(i)), (i, Some(finding(*code, *index))));
    }
    check_same(rt, report.faults(), faults);
    check_same(rt, Some(report.notes()), expected.len().checked_sub(faults));
}

// A level with these findings, so many of them faults, is accepted exactly where it has no fault.
// Whether memory was wanting instead.
fn wants_memory<A: Allocator>(
    rt: &impl Abort,
    accepted: Result<Tree<'_, '_>, Refused<A>>,
    expected: &[Pair],
    faults: usize,
) -> bool {
    match accepted {
        Ok(_) => assert!(rt; faults == 0),
        Err(Refused::Memory) => return true,
        Err(Refused::Faults(report)) => {
            assert!(rt; faults > 0);
            check_report(rt, &report, expected, faults);
        }
    }
    false
}

// Whether `audit` of the level met growth `n` refused: then it answers so, and else with these findings.
fn is_audit_refused(
    rt: &(impl Abort + AllocGlobal),
    level: &Level<'_>,
    n: u64,
    expected: &[Pair],
    faults: usize,
) -> bool {
    let heap = Refusing::new(rt.alloc(), n);
    let result = audit(&heap, level);
    assert!(rt; result.is_err() == heap.has_refused());
    if let Ok(report) = result {
        check_report(rt, &report, expected, faults);
    }
    heap.has_refused()
}

// The same of `accept`.
fn is_accept_refused(
    rt: &(impl Abort + AllocGlobal),
    level: &Level<'_>,
    n: u64,
    expected: &[Pair],
    faults: usize,
) -> bool {
    let heap = Refusing::new(rt.alloc(), n);
    let is_memory = wants_memory(rt, accept(&heap, level), expected, faults);
    assert!(rt; is_memory == heap.has_refused());
    heap.has_refused()
}

// The growths that `audit` and `accept` ask for.
#[derive(Clone, Copy)]
struct Met {
    audits: u64,
    accepts: u64,
}

// Which of the two met growth `n` refused, over those so far; after each refused growth none is.
fn met_with(
    rt: &(impl Abort + AllocGlobal),
    level: &Level<'_>,
    n: u64,
    so_far: Met,
    expected: &[Pair],
    faults: usize,
) -> Met {
    let mut met = so_far;
    if is_audit_refused(rt, level, n, expected, faults) {
        met.audits = n;
    }
    assert!(rt; !is_audit_refused(rt, level, 0, expected, faults));
    if is_accept_refused(rt, level, n, expected, faults) {
        met.accepts = n;
    }
    assert!(rt; !is_accept_refused(rt, level, 0, expected, faults));
    met
}

// How many growths they ask for at a level: numbers 1 to 98 are refused in turn.
fn growths_at(
    rt: &(impl Abort + AllocGlobal),
    level: &Level<'_>,
    expected: &[Pair],
    faults: usize,
) -> Met {
    let mut met = Met {
        audits: 0,
        accepts: 0,
    };
    for n in 1..99 {
        met = met_with(rt, level, n, met, expected, faults);
    }
    assert!(rt; 0 < met.audits && met.audits < 98);
    assert!(rt; 0 < met.accepts && met.accepts < 98);
    met
}

// How many they ask for at the level E1M1 of a file.
fn growths(
    rt: &(impl Abort + AllocGlobal),
    file: Vec<u8>,
    expected: &[Pair],
    faults: usize,
) -> Met {
    growths_at(rt, &level_of(rt, &file), expected, faults)
}

#[test]
fn growth_refused(rt: HostRuntime) {
    let met = growths(&rt, base(&rt), &[], 0);
    assert!(rt; met.audits == met.accepts, "no memory for no findings");
    growths(&rt, base_not_reached(&rt), &NOT_REACHED, 4);
    let side_missing = base_with(&rt, &[(2, &LINE_WITHOUT_SIDE_1)]);
    growths(&rt, side_missing, &SIDE_MISSING, 1);
    growths(&rt, base_with(&rt, &[(9, &[])]), &[(Code::N8, 0)], 0);
}
