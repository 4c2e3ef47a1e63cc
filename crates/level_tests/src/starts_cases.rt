//! Where the sample level starts, that none does behind it, and what its label's holder takes.

use crate::compare::check_same;
use crate::sample::{Lump, base, lumps, pack_both};
use level_starts::{Format, Holders, LevelStarts, format_of, next_start};
use map_level::{Level, Reading};
use std::process::Abort;
use test_refusals::Refusing;
use wad_dir::Set;

// The first start from an entry on, and its format.
fn next(set: &Set<'_>, from: usize) -> Option<(usize, Format)> {
    let g = next_start(set, from)?;
    Some((g, format_of(set, g)))
}

// A set's levels are those that are wanted.
fn check_set(rt: &impl Abort, set: &Set<'_>, wanted: &[(usize, Format)]) {
    let mut from = 0;
    for (g, format) in wanted {
        check_same(rt, next(set, from), Some((*g, *format)));
        assert!(rt; *g < 100);
        from = *g + 1;
    }
    check_same(rt, next(set, from), None);
}

// A set's levels start where it is wanted, one after another, and then there are no more.
fn check_starts(rt: &impl Abort, set: &Set<'_>, wanted: &[(usize, Format)]) {
    let mut starts = LevelStarts::of(set);
    for (g, _) in wanted {
        check_same(rt, starts.next(), Some(*g));
    }
    check_same(rt, starts.next(), None);
    check_same(rt, starts.next(), None);
}

fn check(rt: &(impl Abort + AllocGlobal), file: &[u8], wanted: &[(usize, Format)]) {
    let set = Set::one(rt.alloc(), file).expect(rt, "a set of the file");
    check_set(rt, &set, wanted);
    check_starts(rt, &set, wanted);
}

// No level starts at an entry or behind it.
fn check_none_from(rt: &(impl Abort + AllocGlobal), file: &[u8], from: usize) {
    let set = Set::one(rt.alloc(), file).expect(rt, "a set of the file");
    check_same(rt, next(&set, from), None);
}

// The first entry is a level's label.
fn check_label(rt: &(impl Abort + AllocGlobal), file: &[u8]) {
    let set = Set::one(rt.alloc(), file).expect(rt, "a set of the file");
    assert!(rt; 0 < set.total());
    assert!(rt; Level::at(&set, 0, Reading::Signed).is_ok());
}

#[test]
fn start_of_the_sample(rt: HostRuntime) {
    let file = base(&rt);
    check(&rt, &file, &[(0, Format::Doom)]);
    check_none_from(&rt, &file, 1);
    check_none_from(&rt, &file, 11);
    check_none_from(&rt, &file, usize::MAX);
    check_label(&rt, &file);
}

// Lumps of as many other names.
const OTHERS: [Lump<'static>; 12] = [
    (b"A", &[]),
    (b"B", &[]),
    (b"C", &[]),
    (b"D", &[]),
    (b"E", &[]),
    (b"F", &[]),
    (b"G", &[]),
    (b"H", &[]),
    (b"I", &[]),
    (b"J", &[]),
    (b"K", &[]),
    (b"L", &[]),
];

// Whether the holders of a set's labels ask for growth `n`.
fn ask_for(rt: &(impl Abort + AllocGlobal), set: &Set<'_>, n: u64) -> bool {
    let heap = Refusing::new(rt.alloc(), n);
    assert!(rt; Holders::of(&heap, set).is_err() == heap.has_refused());
    heap.has_refused()
}

// One label takes one growth. The names of all 23 entries would take several.
#[test]
fn holder_of_one_label(rt: HostRuntime) {
    let file = pack_both(&rt, &lumps(), &OTHERS);
    let set = Set::one(rt.alloc(), &file).expect(&rt, "a set of the file");
    assert!(rt; ask_for(&rt, &set, 1));
    assert!(rt; !ask_for(&rt, &set, 2));
}
