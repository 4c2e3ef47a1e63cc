//! The calls of `lens_engines` and `demo_engines` over a level, an entry or a file's demos, with each growth refused in turn. The check and the
//! survey of a file stand apart.

use crate::compare::{check_bytes, check_same};
use crate::demo_cases::TWO;
use crate::opening::level_of;
use crate::sample::{LINE_WITHOUT_SIDE_1, base, base_with, pack};
use demo_engines::{DemoQuestion, DemosFault, demos_file};
use le_rec::Sink;
use lens_engines::{Base, CutFault, Judged, Rules, Warnings, cut_level};
use lens_texts::{AtOnce, Form, Unwatched};
use level_codes::{CodeSet, WarningCode};
use map_level::{Level, Reading};
use std::alloc::{AllocError, Allocator};
use std::process::Abort;
use test_refusals::{Refusing, SliceSink};

// A level looked over with one warning of a code at most.
fn looked_over<'l, 'a, A: Allocator + Copy>(
    alloc: A,
    level: &'l Level<'a>,
    warnings: Warnings,
) -> Result<Judged<'l, 'a, A>, AllocError> {
    let rules = Rules {
        reading: Reading::Signed,
        warnings,
        ignored: CodeSet::none(),
        failing: CodeSet::none(),
        game_ends: false,
    };
    let base = Base::none();
    Judged::of(alloc, level, &None, 1, rules.over(&base))
}

// How many faults and notes a level has; None where a growth was refused.
fn counted(rt: &(impl Abort + AllocGlobal), level: &Level<'_>, n: u64) -> Option<(u64, u64)> {
    let heap = Refusing::new(rt.alloc(), n);
    let judged = looked_over(&heap, level, Warnings::Unasked);
    check_same(rt, judged.is_err(), heap.has_refused());
    let judged = judged.ok()?;
    Some((judged.counts().faults(), judged.counts().notes()))
}

// How many warnings of each code are told, in order, and the total.
fn told<A: Allocator>(rt: &impl Abort, judged: &Judged<'_, '_, A>) -> ([usize; 25], u64) {
    let all = judged.warned();
    let mut counts = [0; 25];
    for (count, warned) in counts.iter_mut().zip(all) {
        *count = warned.count();
    }
    if let Some(first) = all.first() {
        check_same(rt, (first.code(), all.len()), (WarningCode::W1, 25));
    }
    (counts, judged.counts().warnings())
}

// What is told of a level's warnings where they are asked for so; None where a growth was refused.
fn asked_for(
    rt: &(impl Abort + AllocGlobal),
    level: &Level<'_>,
    warnings: Warnings,
    n: u64,
) -> Option<([usize; 25], u64)> {
    let heap = Refusing::new(rt.alloc(), n);
    let judged = looked_over(&heap, level, warnings);
    check_same(rt, judged.is_err(), heap.has_refused());
    Some(told(rt, &judged.ok()?))
}

// The sample level has one start and no exit, and its two sectors are open at both ends of its linedef.
const WARNED: ([usize; 25], u64) = (
    [
        4, 0, 0, 0, 0, 0, 1, 1, 0, 0, 0, 0, 0, 0, 0, 0, 0, 0, 1, 0, 0, 0, 0, 0, 0,
    ],
    7,
);

const NOT_WARNED: ([usize; 25], u64) = ([0; 25], 0);

fn check_counts(rt: &(impl Abort + AllocGlobal), level: &Level<'_>) {
    let mut met = 0;
    for n in 1..99 {
        if let Some(counts) = counted(rt, level, n) {
            check_same(rt, counts, (1, 1));
            break;
        }
        met = n;
    }
    assert!(rt; 0 < met && met < 98);
}

// A seg has no side on its linedef, which is two-sided by its flags.
#[test]
fn counts_refused(rt: HostRuntime) {
    let file = base_with(&rt, &[(2, &LINE_WITHOUT_SIDE_1)]);
    check_counts(&rt, &level_of(&rt, &file));
}

// What is told of a level's warnings where the growth of this number is the first that isn't there to refuse.
fn all_told(
    rt: &(impl Abort + AllocGlobal),
    level: &Level<'_>,
    warnings: Warnings,
) -> (u64, ([usize; 25], u64)) {
    let mut growth = 1;
    for n in 1..99 {
        growth = n;
        if let Some(told) = asked_for(rt, level, warnings, n) {
            return (n, told);
        }
    }
    (growth, NOT_WARNED)
}

fn check_warnings(rt: &(impl Abort + AllocGlobal), level: &Level<'_>) {
    let (growths, told) = all_told(rt, level, Warnings::Told);
    check_same(rt, told, WARNED);
    // Where they aren't asked for, there are no growths but those for the level's findings.
    let (fewer, none) = all_told(rt, level, Warnings::Unasked);
    check_same(rt, none, NOT_WARNED);
    assert!(rt; 1 < fewer && fewer < growths && growths < 98);
}

#[test]
fn warnings_refused(rt: HostRuntime) {
    let file = base(&rt);
    check_warnings(&rt, &level_of(&rt, &file));
}

// Whether cutting the level at entry 0 met growth `n` refused: then nothing was written.
fn is_cut_refused(rt: &(impl Abort + AllocGlobal), file: &[u8], n: u64) -> bool {
    let heap = Refusing::new(rt.alloc(), n);
    let mut room = [0; 1024];
    let mut out = SliceSink::new(&mut room);
    let fresh = !out.failed();
    assert!(rt; fresh);
    let cut = cut_level(&heap, file, 0, &mut out);
    let refused = heap.has_refused();
    check_same(
        rt,
        cut,
        if refused {
            Err(CutFault::Memory)
        } else {
            Ok(())
        },
    );
    check_bytes(rt, out.taken(), if refused { b"" } else { file });
    refused
}

// The sample is its own level alone.
#[test]
fn cut_refused(rt: HostRuntime) {
    let file = base(&rt);
    let mut met = 0;
    for n in 1..99 {
        if !is_cut_refused(&rt, &file, n) {
            break;
        }
        met = n;
    }
    assert!(&rt; 0 < met && met < 98);
}

// How the report on the demos of a file ends where growth `n` is refused, and whether it was: then nothing was written.
fn demos_end(
    rt: &(impl Abort + AllocGlobal),
    form: Form,
    file: &[u8],
    text: &[u8],
    n: u64,
) -> bool {
    let heap = Refusing::new(rt.alloc(), n);
    let mut room = [0; 1024];
    let mut out = AtOnce(SliceSink::new(&mut room));
    let mut messages = [0; 1024];
    let mut errors = SliceSink::new(&mut messages);
    let fresh = !out.failed() && !errors.failed();
    assert!(rt; fresh);
    let question = DemoQuestion {
        path: b"a.wad",
        form,
    };
    let all_read = demos_file(
        &heap,
        &question,
        file,
        &mut out,
        &mut errors,
        &mut Unwatched,
    );
    let refused = heap.has_refused();
    check_same(
        rt,
        all_read,
        if refused {
            Err(DemosFault::Memory)
        } else {
            Ok(true)
        },
    );
    check_bytes(rt, out.0.taken(), if refused { b"" } else { text });
    check_bytes(rt, errors.taken(), b"");
    refused
}

// A file that is a WAD file takes one growth, and a demo none.
fn check_demos(rt: &(impl Abort + AllocGlobal), form: Form, text: &[u8], alone: &[u8]) {
    let file = pack(rt, &[(b"DEMO1", &TWO)]);
    assert!(rt; demos_end(rt, form, &file, text, 1));
    assert!(rt; !demos_end(rt, form, &file, text, 2));
    assert!(rt; !demos_end(rt, form, &TWO, alone, 1));
}

#[test]
fn demos_refused(rt: HostRuntime) {
    check_demos(
        &rt,
        Form::Lines,
        b"a.wad: DEMO1: version 109, skill 3, episode 1, map 1, 1 player, 2 tics, 0:00.05, after 1\n",
        b"a.wad: version 109, skill 3, episode 1, map 1, 1 player, 2 tics, 0:00.05, after 1\n",
    );
    check_demos(
        &rt,
        Form::Objects,
        b"{\"file\":\"a.wad\",\"lump\":\"DEMO1\",\"version\":109,\"skill\":3,\"episode\":1,\"map\":1,\"players\":1,\"tics\":2,\"odd\":0,\"after\":1}\n",
        b"{\"file\":\"a.wad\",\"version\":109,\"skill\":3,\"episode\":1,\"map\":1,\"players\":1,\"tics\":2,\"odd\":0,\"after\":1}\n",
    );
}
