//! The callers of the libraries, each on its happy path and at one refusal.

use crate::compare::{check_bytes, check_same};
use crate::findings::{NOT_REACHED, finding};
use crate::opening::level_of;
use crate::sample::{base, base_not_reached};
use demo_lump::{DemoFault, StreamFault};
use examples::{
    ExchangeFault, commands_firing, first_fault, full_tics, points_in_sector, sectors_of_things,
    with_lump,
};
use map_audit::sound_tree;
use map_geo::Rect;
use map_level::{Finding, Level};
use std::alloc::Allocator;
use std::process::Abort;
use test_refusals::SliceSource;
use wad_dir::{LumpFault, Set, SetFault, WadFault};

const NO_MEMORY: &str = "no memory for the callers";

// One player's commands, the first and the third with the fire button, the last a request to the
// game; the marker, and one byte behind it.
const DEMO: [u8; 31] = [
    109, 3, 1, 1, 0, 0, 0, 0, 0, 1, 0, 0, 0, 25, 0, 0, 1, 25, 0, 0, 0, 0, 0, 0, 3, 0, 0, 0, 129,
    128, 7,
];

// What is counted of a demo that comes three bytes at a time, and what is left of it.
fn firing(bytes: &[u8]) -> (Result<u64, StreamFault>, usize) {
    let mut source = SliceSource::new(bytes).at_most(3);
    let counted = commands_firing(&mut source);
    (counted, source.left().len())
}

// The tics of a demo.
fn tics(bytes: &[u8]) -> Result<usize, DemoFault> {
    full_tics(bytes)
}

#[test]
fn demos(rt: HostRuntime) {
    check_same(&rt, tics(&DEMO), Ok(4));
    check_same(&rt, tics(&DEMO[..29]), Err(DemoFault::NoMarker(29)));
    check_same(&rt, firing(&DEMO), (Ok(2), 1));
    let cut = StreamFault::Demo(DemoFault::NoMarker(25));
    check_same(&rt, firing(&DEMO[..28]), (Err(cut), 0));
}

// How many points from (-2, 0) to (1, 0) are in a sector of a sound level.
fn points_of(rt: &(impl Abort + AllocGlobal), level: &Level<'_>, sector: u16) -> Option<u32> {
    let row = Rect::new(-2, 0, 1, 0).expect(rt, "a rectangle");
    let tree = sound_tree(rt.alloc(), level).expect(rt, NO_MEMORY)?;
    Some(points_in_sector(rt.alloc(), &tree, row, sector).expect(rt, NO_MEMORY))
}

// The sector of the first thing of a level.
fn first_thing(rt: &(impl Abort + AllocGlobal), level: &Level<'_>) -> Option<u16> {
    let sectors = sectors_of_things(rt.alloc(), level).expect(rt, NO_MEMORY)?;
    sectors.first().copied().flatten()
}

// The first fault of a level, the sector of its first thing, and how many points from (-2, 0) to
// (1, 0) are in its sector 1.
#[derive(Clone, Copy)]
struct CallerAnswers {
    fault: Option<Finding>,
    thing: Option<u16>,
    points: Option<u32>,
}

// Compares what is told of the level E1M1 of a file.
fn check_told(rt: &(impl Abort + AllocGlobal), file: &[u8], expected: CallerAnswers) {
    let level = level_of(rt, file);
    let fault = first_fault(rt.alloc(), &level).expect(rt, NO_MEMORY);
    check_same(rt, fault, expected.fault);
    check_same(rt, first_thing(rt, &level), expected.thing);
    check_same(rt, points_of(rt, &level, 1), expected.points);
}

#[test]
fn levels(rt: HostRuntime) {
    let sound = CallerAnswers {
        fault: None,
        thing: Some(0),
        points: Some(3),
    };
    check_told(&rt, &base(&rt), sound);
    let (code, index) = NOT_REACHED[0];
    let other = CallerAnswers {
        fault: Some(finding(code, index)),
        thing: None,
        points: None,
    };
    check_told(&rt, &base_not_reached(&rt), other);
}

// The file with other bytes as lump g.
fn exchanged<A: Allocator + Copy>(
    alloc: A,
    file: &[u8],
    g: usize,
    bytes: &[u8],
) -> Result<Vec<u8, A>, ExchangeFault> {
    with_lump(alloc, file, g, bytes)
}

// That a set's entry is the other's, with these bytes in its place where it is g.
fn check_entry(rt: &impl Abort, sets: (&Set<'_>, &Set<'_>), i: usize, g: usize, bytes: &[u8]) {
    let (old, new) = sets;
    assert!(rt; i < old.total() && i < new.total());
    check_same(rt, (i, new.name(i)), (i, old.name(i)));
    let lump = new.lump(i).expect(rt, "a lump");
    if i == g {
        check_bytes(rt, lump, bytes);
    } else {
        check_bytes(rt, lump, old.lump(i).expect(rt, "a lump"));
    }
}

// That a file's entries are those of another, with these bytes as lump g.
fn check_exchanged(
    rt: &(impl Abort + AllocGlobal),
    old: &[u8],
    new: &[u8],
    g: usize,
    bytes: &[u8],
) {
    let old = Set::one(rt.alloc(), old).expect(rt, "a set of the file");
    let new = Set::one(rt.alloc(), new).expect(rt, "a set of the other file");
    assert!(rt; new.total() == old.total());
    for i in 0..old.total() {
        check_entry(rt, (&old, &new), i, g, bytes);
    }
}

// Why a file's lump isn't exchanged.
fn check_refused(rt: &(impl Abort + AllocGlobal), file: &[u8], g: usize, expected: ExchangeFault) {
    check_same(
        rt,
        exchanged(rt.alloc(), file, g, b"xyz").err(),
        Some(expected),
    );
}

#[test]
fn lump_exchanged(rt: HostRuntime) {
    let file = base(&rt);
    let other = exchanged(rt.alloc(), &file, 9, b"xyz").expect(&rt, "a file");
    check_exchanged(&rt, &file, &other, 9, b"xyz");
    check_refused(&rt, &file, 11, ExchangeFault::Lump(LumpFault::NoSuch));
    let fault = SetFault::File(1, WadFault::Short);
    check_refused(&rt, b"PWAD", 0, ExchangeFault::Set(fault));
}
