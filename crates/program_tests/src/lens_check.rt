//! The check of a file: a failed output, each growth refused in turn, and totals that are added up.

use crate::compare::{check_bytes, check_same};
use crate::sample::{LINE_WITHOUT_SIDE_1, base_with, base_with_lines, round, round_and};
use le_rec::Sink;
use lens_engines::{
    Base, Judging, LevelsFault, Question, Rules, Totals, Unlisted, Verdict, Warnings, check_file,
    write_totals,
};
use lens_texts::Form;
use level_codes::{CodeSet, ReportCode, WarningCode};
use map_level::Reading;
use std::alloc::Allocator;
use std::process::Abort;
use test_refusals::{Refusing, SliceSink};

// A check into an output that hasn't failed.
fn check<A: Allocator + Copy>(
    rt: &impl Abort,
    alloc: A,
    question: &Question<'_>,
    file: &[u8],
    out: &mut SliceSink<'_>,
) -> Result<Totals, LevelsFault> {
    let fresh = !out.failed();
    assert!(rt; fresh);
    check_file(alloc, question, file, out)
}

// The totals of levels: how many, faults, notes, broken ones, and those that aren't read.
fn totals(levels: u64, faults: u64, notes: u64, broken: u64, unread: u64) -> Totals {
    Totals {
        levels,
        faults,
        notes,
        warnings: 0,
        failing: 0,
        broken,
        unread,
        partly: 0,
        unlooked: CodeSet::none(),
        unlisted: Unlisted::none(),
    }
}

// The signed reading, with warnings asked for so.
fn signed<'b>(base: &'b Base<'b>, warnings: Warnings) -> Judging<'b> {
    let rules = Rules {
        reading: Reading::Signed,
        warnings,
        ignored: CodeSet::none(),
        failing: CodeSet::none(),
        game_ends: false,
    };
    rules.over(base)
}

const SIDELESS: &[u8] =
    b"a.wad: E1M1: F9 seg 1: linedef 0 has no sidedef on side 1, from (0, 64) to (0, 0)\n\
a.wad: E1M1: N3 linedef 0: two-sided, without a back sidedef, from (0, 0) to (0, 64)\n";

// The check of a file whose output fails at its fourth put writes this text before.
fn check_failing(rt: &(impl Abort + AllocGlobal), file: &[u8], fault: LevelsFault, text: &[u8]) {
    let mut room = [0; 1024];
    let mut out = SliceSink::new(&mut room).failing_at(4);
    let alone = Base::none();
    let question = Question {
        form: Form::Lines,
        path: b"a.wad",
        most: 20,
        judging: signed(&alone, Warnings::Unasked),
    };
    let result = check(rt, rt.alloc(), &question, file, &mut out);
    check_same(rt, result, Err(fault));
    check_bytes(rt, out.taken(), text);
}

// What is written of the level of a code before the output fails.
#[test]
fn output_fails(rt: HostRuntime) {
    let file = base_with(&rt, &[(2, &LINE_WITHOUT_SIDE_1)]);
    let fault = LevelsFault::Write(Verdict::Faulty);
    check_failing(&rt, &file, fault, b"a.wad: E1M1: F9 seg 1: ");
}

// Whether the check met growth `n` refused; then it has written nothing.
fn is_refused(rt: &(impl Abort + AllocGlobal), file: &[u8], n: u64) -> bool {
    let heap = Refusing::new(rt.alloc(), n);
    let mut room = [0; 1024];
    let mut out = SliceSink::new(&mut room);
    let alone = Base::none();
    let question = Question {
        form: Form::Lines,
        path: b"a.wad",
        most: 20,
        judging: signed(&alone, Warnings::Unasked),
    };
    let result = check(rt, &heap, &question, file, &mut out);
    if !heap.has_refused() {
        check_same(rt, result, Ok(totals(1, 1, 1, 0, 0)));
        check_bytes(rt, out.taken(), SIDELESS);
        return false;
    }
    check_same(rt, result, Err(LevelsFault::Memory));
    assert!(rt; out.taken().is_empty());
    true
}

#[test]
fn growth_refused(rt: HostRuntime) {
    let file = base_with(&rt, &[(2, &LINE_WITHOUT_SIDE_1)]);
    let mut met = 0;
    for n in 1..40 {
        if !is_refused(&rt, &file, n) {
            break;
        }
        met = n;
    }
    assert!(rt; 2 < met && met < 39);
}

// What is written of the totals of two files.
fn check_totals(rt: &impl Abort, warnings: Warnings, all: &Totals, text: &[u8]) {
    let mut room = [0; 256];
    let mut out = SliceSink::new(&mut room);
    let fresh = !out.failed();
    assert!(rt; fresh);
    assert!(rt; write_totals(Form::Lines, 2, warnings, all, &mut out).is_ok());
    check_bytes(rt, out.taken(), text);
}

#[test]
fn totals_of_a_run(rt: HostRuntime) {
    let all = totals(2, 1, 3, 1, 2).with(totals(1, 0, 1, 0, 1));
    let text = b"3 levels in 2 files: 1 faults, 4 notes, 4 not judged\n";
    check_totals(&rt, Warnings::Unasked, &all, text);
}

// The sample level's file lists no textures and no flats.
const NEITHER: Unlisted = Unlisted {
    textures: true,
    flats: true,
    flat_start: true,
    flat_end: true,
};

// So W9, W10 and W25 aren't looked for.
fn neither() -> CodeSet {
    CodeSet::between(
        ReportCode::Warning(WarningCode::W9),
        ReportCode::Warning(WarningCode::W10),
    )
    .with(CodeSet::between(
        ReportCode::Warning(WarningCode::W25),
        ReportCode::Warning(WarningCode::W25),
    ))
}

// The totals of the sample where it is warned of.
fn warned() -> Totals {
    Totals {
        warnings: 7,
        partly: 1,
        unlooked: neither(),
        unlisted: NEITHER,
        ..totals(1, 0, 0, 0, 0)
    }
}

#[test]
fn totals_with_warnings(rt: HostRuntime) {
    let all = warned().with(warned()).with(totals(1, 2, 1, 0, 1));
    let text =
        b"3 levels in 2 files: 2 faults, 1 notes, 14 warnings, 1 not judged, 2 with warnings not looked for\n";
    check_totals(&rt, Warnings::Told, &all, text);
}

// Whether a check with warnings met growth `n` refused, and whether it succeeded without it. If memory ran out, it has written a
// front of the text.
fn warned_end(
    rt: &(impl Abort + AllocGlobal),
    file: &[u8],
    text: &[u8],
    answer: Totals,
    n: u64,
) -> (bool, bool) {
    let heap = Refusing::new(rt.alloc(), n);
    let mut room = [0; 1024];
    let mut out = SliceSink::new(&mut room);
    let alone = Base::none();
    let question = Question {
        form: Form::Lines,
        path: b"a.wad",
        most: 3,
        judging: signed(&alone, Warnings::Told),
    };
    let result = check(rt, &heap, &question, file, &mut out);
    if result.is_ok() {
        check_same(rt, result, Ok(answer));
        check_bytes(rt, out.taken(), text);
        return (heap.has_refused(), true);
    }
    check_same(rt, result, Err(LevelsFault::Memory));
    assert!(rt; heap.has_refused());
    assert!(rt; text.starts_with(out.taken()));
    (true, false)
}

// Refuses each growth of a check with warnings in turn until none is. It does without so many of them.
fn check_spared(
    rt: &(impl Abort + AllocGlobal),
    file: &[u8],
    text: &[u8],
    answer: Totals,
    spared: u32,
) {
    let mut found = 0u32;
    let mut granted = false;
    for n in 1..99 {
        let (refused, answered) = warned_end(rt, file, text, answer, n);
        if !refused {
            granted = true;
            break;
        }
        found = found.wrapping_add(u32::from(answered));
    }
    assert!(rt; granted);
    check_same(rt, found, spared);
}

const NO_STARTS: &[u8] = b"a.wad: E1M1: W7 level: no player 2 start\n\
a.wad: E1M1: W8 level: 0 deathmatch starts\n\
a.wad: E1M1: W19 level: no exit\n";

// So many warnings of a level that has no finding.
fn alone(warnings: u64) -> Totals {
    Totals {
        warnings,
        partly: 1,
        unlooked: neither(),
        unlisted: NEITHER,
        ..totals(1, 0, 0, 0, 0)
    }
}

// It does without the three lists of W1 and the two of W6.
#[test]
fn lists_refused(rt: HostRuntime) {
    let file = base_with_lines(&rt, &round(&rt, 200), 200);
    check_spared(&rt, &file, NO_STARTS, alone(3), 5);
}

const OPEN: &[u8] = b"a.wad: E1M1: W1 sector 0: isn't closed, at (0, 0)\n\
a.wad: E1M1: W1 sector 0: isn't closed, at (5, 0)\n\
a.wad: E1M1: W1 sector 0: isn't closed, at (12, 0)\n\
a.wad: E1M1: W1: 1 more\n\
a.wad: E1M1: W6 linedef 202: lies on linedef 200, from (13, 0) to (5, 0)\n\
a.wad: E1M1: W6 linedef 203: lies on linedef 200, from (5, 0) to (13, 0)\n\
a.wad: E1M1: W7 level: no player 2 start\n\
a.wad: E1M1: W8 level: 0 deathmatch starts\n\
a.wad: E1M1: W19 level: no exit\n";

// The sector is open by two linedefs whose squares add up to the same, and two lie on an earlier one.
#[test]
fn lists_refused_in_vain(rt: HostRuntime) {
    let others = [(5, 13), (12, 0), (13, 5), (5, 13)];
    let file = base_with_lines(&rt, &round_and(&rt, 200, &others), 200);
    check_spared(&rt, &file, OPEN, alone(9), 5);
}
