//! Pictures of levels as texts, with each growth refused in turn.

use crate::compare::{check_bytes, check_same, contains};
use crate::opening::level_of;
use crate::sample::{LINE_WITHOUT_SIDE_1, base, base_with};
use le_rec::Sink;
use map_cells::{CellCount, Frame};
use map_level::Level;
use map_picture::{DrawFault, View, draw_level};
use memory_streams::ToVec;
use std::alloc::Allocator;
use std::process::Abort;
use test_refusals::Refusing;

// How a drawing ends that is refused a growth: no growth was refused, it has no memory left, or it succeeds without that growth.
#[derive(Clone, Copy)]
enum GrowthEnd {
    Granted,
    Refused,
    Spared,
}

// Draws into an output that hasn't failed.
fn draw<A: Allocator + Copy>(
    rt: &impl Abort,
    alloc: A,
    level: &Level<'_>,
    view: &View,
    out: &mut ToVec,
) -> Result<bool, DrawFault> {
    let fresh = !out.failed();
    assert!(rt; fresh);
    draw_level(alloc, level, *view, out)
}

// How a drawing ends if growth `n` is refused. Nothing is written before `Memory` is returned, and what is drawn is the picture.
fn end_of(
    rt: &(impl Abort + AllocGlobal),
    level: &Level<'_>,
    view: &View,
    text: &[u8],
    faulty: bool,
    n: u64,
) -> GrowthEnd {
    let heap = Refusing::new(rt.alloc(), n);
    let mut out = ToVec::new(rt.alloc());
    let drawn = draw(rt, &heap, level, view, &mut out);
    if drawn.is_err() {
        check_same(rt, drawn, Err(DrawFault::Memory));
        assert!(rt; heap.has_refused() && out.taken().is_empty());
        return GrowthEnd::Refused;
    }
    check_same(rt, drawn, Ok(faulty));
    check_bytes(rt, out.taken(), text);
    if heap.has_refused() {
        GrowthEnd::Spared
    } else {
        GrowthEnd::Granted
    }
}

// Refuses each growth of a drawing in turn until none is. It does without so many of them.
fn check_ends(
    rt: &(impl Abort + AllocGlobal),
    level: &Level<'_>,
    view: &View,
    text: &[u8],
    faulty: bool,
    spared: u32,
) {
    let mut met = 0;
    let mut found = 0u32;
    for n in 1..99 {
        match end_of(rt, level, view, text, faulty, n) {
            GrowthEnd::Granted => break,
            GrowthEnd::Refused => {}
            GrowthEnd::Spared => found = found.wrapping_add(1),
        }
        met = n;
    }
    assert!(rt; 0 < met && met < 98);
    check_same(rt, found, spared);
}

// What a level's picture has, whether the level has a fault, and how many growths drawing it does without.
fn check_level(
    rt: &(impl Abort + AllocGlobal),
    level: &Level<'_>,
    view: &View,
    lines: &[&[u8]],
    faulty: bool,
    spared: u32,
) {
    let mut out = ToVec::new(rt.alloc());
    check_same(rt, draw(rt, rt.alloc(), level, view, &mut out), Ok(faulty));
    for line in lines {
        assert!(rt; contains(out.taken(), line));
    }
    check_ends(rt, level, view, out.taken(), faulty, spared);
}

fn check_file(
    rt: &(impl Abort + AllocGlobal),
    file: &[u8],
    lines: &[&[u8]],
    faulty: bool,
    spared: u32,
) {
    let view = View {
        frame: Frame::new(-64, 0, 63, 127),
        cells: CellCount::new(16).expect(rt, "so many cells"),
        warnings: None,
    };
    check_level(rt, &level_of(rt, file), &view, lines, faulty, spared);
}

// Sixteen by sixteen cells of eight map units: the sample level's linedef is in their middle, and each sector has a half.
const HALVES: [&[u8]; 2] = [
    b"<path fill=\"#7f7f93\" d=\"M8 0h8v16h-8z\"><title>sector 0: floor 0 FLAT1, ceiling 128 FLAT1, light 160, \
special 0, tag 0, 128 cells</title></path>\n",
    b"<path fill=\"#7f7f93\" d=\"M0 0h8v16h-8z\"><title>sector 1: floor 0 FLAT1, ceiling 128 FLAT1, light 160, \
special 0, tag 0, 128 cells</title></path>\n",
];

// It does without the list of the segs' ends.
#[test]
fn sound_level(rt: HostRuntime) {
    check_file(&rt, &base(&rt), &HALVES, false, 1);
}

// It has no cells.
#[test]
fn faulty_level(rt: HostRuntime) {
    let file = base_with(&rt, &[(2, &LINE_WITHOUT_SIDE_1)]);
    check_file(&rt, &file, &[], true, 0);
}

// If there is nothing to draw, no growth is asked for.
#[test]
fn nothing_to_draw(rt: HostRuntime) {
    let file = base_with(&rt, &[(2, &[])]);
    let level = level_of(&rt, &file);
    let heap = Refusing::new(rt.alloc(), 1);
    let mut out = ToVec::new(rt.alloc());
    let view = View {
        frame: None,
        cells: CellCount::new(16).expect(&rt, "so many cells"),
        warnings: None,
    };
    let drawn = draw(&rt, &heap, &level, &view, &mut out);
    check_same(&rt, drawn, Err(DrawFault::NothingToDraw));
    assert!(&rt; !heap.has_refused() && out.taken().is_empty());
}
