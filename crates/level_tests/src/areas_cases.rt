//! Areas beside censuses: the same pairs on many trees, in each form, and no more growths.

use crate::census_cases::{rect_of, shuffled, small_rect};
use crate::compare::check_same;
use crate::made_trees::{Shape, made_tree};
use crate::opening::{level_of, sectors_of, tree_of};
use crate::sample::{base, base_chain, base_two_nodes, base_with_node};
use map_geo::Rect;
use map_level::Level;
use map_tree::{Areas, Counts, SectorTree, Tally, Tree};
use std::alloc::{Allocator, Global};
use std::process::Abort;
use test_refusals::Refusing;

// A rectangle and its pairs.
type Case = ([i32; 4], &'static [(u16, u32)]);

fn check_areas<A: Allocator>(rt: &impl Abort, areas: &Areas<A>, pairs: &[(u16, u32)]) {
    check_same(rt, areas.len(), pairs.len());
    for (i, pair) in pairs.iter().enumerate() {
        check_same(rt, (i, areas.get(i)), (i, Some(*pair)));
    }
    check_same(rt, areas.get(pairs.len()), None);
}

// Compares areas with a census.
fn check_pairs<A: Allocator>(rt: &impl Abort, areas: &Areas<A>, counts: &Counts<A>) {
    check_same(rt, areas.len(), counts.len());
    for i in 0..counts.len() {
        check_same(rt, (i, areas.get(i)), (i, counts.get(i)));
    }
    check_same(rt, areas.get(counts.len()), None);
}

fn areas_of(rt: &(impl Abort + AllocGlobal), tree: &Tree<'_, '_>, rect: Rect) -> Areas<Global> {
    tree.areas(rt.alloc(), rect)
        .expect(rt, "no memory for the areas")
}

fn census_of(rt: &(impl Abort + AllocGlobal), tree: &Tree<'_, '_>, rect: Rect) -> Counts<Global> {
    tree.census(rt.alloc(), rect)
        .expect(rt, "no memory for the census")
}

// The areas in a tree whose sectors are listed.
fn listed_areas_of<B: Allocator>(
    rt: &(impl Abort + AllocGlobal),
    sectors: &SectorTree<'_, '_, B>,
    rect: Rect,
) -> Areas<Global> {
    sectors
        .areas(rt.alloc(), rect)
        .expect(rt, "no memory for the areas")
}

// Compares the areas of a rectangle with pairs, in each form, and with its census.
fn check_case<B: Allocator>(
    rt: &(impl Abort + AllocGlobal),
    tree: &Tree<'_, '_>,
    sectors: &SectorTree<'_, '_, B>,
    case: Case,
) {
    let (bounds, pairs) = case;
    let rect = rect_of(rt, bounds);
    let areas = areas_of(rt, tree, rect);
    check_areas(rt, &areas, pairs);
    check_pairs(rt, &areas, &census_of(rt, tree, rect));
    check_areas(rt, &listed_areas_of(rt, sectors, rect), pairs);
}

fn check_level(rt: &(impl Abort + AllocGlobal), level: &Level<'_>, cases: &[Case]) {
    let tree = tree_of(rt, level);
    let sectors = sectors_of(rt, level);
    for case in cases {
        check_case(rt, &tree, &sectors, *case);
    }
}

// Opens the level of a file and compares the areas of rectangles.
fn check_cases(rt: &(impl Abort + AllocGlobal), file: Vec<u8>, cases: &[Case]) {
    check_level(rt, &level_of(rt, &file), cases);
}

const OF_BASE: [Case; 5] = [
    ([-1, 0, 1, 1], &[(0, 2), (1, 4)]),
    ([0, 0, 0, 0], &[(1, 1)]),
    ([0, 0, 1023, 1023], &[(0, 1_047_552), (1, 1024)]),
    ([-512, -512, 511, 511], &[(0, 523_264), (1, 525_312)]),
    ([5, 0, 9, 9], &[(0, 50)]),
];

const OF_DIAGONAL: [Case; 1] = [([-1, -1, 1, 1], &[(0, 4), (1, 5)])];

const OF_NO_DIRECTION: [Case; 1] = [([-1, 0, 1, 1], &[(0, 6)])];

const OF_TWO_NODES: [Case; 1] = [([-1, 9, 1, 11], &[(0, 2), (1, 7)])];

const OF_CHAIN: [Case; 1] = [([1, 0, 1024, 1023], &[(0, 1_048_576)])];

#[test]
fn areas_of_cases(rt: HostRuntime) {
    check_cases(&rt, base(&rt), &OF_BASE);
    check_cases(&rt, base_with_node(&rt, 0, 0, -1, 1), &OF_DIAGONAL);
    check_cases(&rt, base_with_node(&rt, 0, 0, 0, 0), &OF_NO_DIRECTION);
    check_cases(&rt, base_two_nodes(&rt), &OF_TWO_NODES);
    check_cases(&rt, base_chain(&rt, 32767), &OF_CHAIN);
}

// One row or column, two of them, three columns, or some of both.
fn made_rect(rt: &impl Abort, seed: u64) -> Rect {
    let rect = small_rect(rt, seed);
    let (x0, y0) = (rect.x0(), rect.y0());
    match shuffled(seed) & 7 {
        0 => rect_of(rt, [x0, y0, rect.x1(), y0]),
        1 => rect_of(rt, [x0, y0, x0, rect.y1()]),
        2 => rect_of(rt, [x0, y0, rect.x1(), y0 + 1]),
        3 => rect_of(rt, [x0, y0, x0 + 1, rect.y1()]),
        4 => rect_of(rt, [x0, y0, x0 + 2, rect.y1()]),
        _ => rect,
    }
}

// Compares the areas of a rectangle with its census, both from one tally.
fn check_made<A: Allocator + Copy>(rt: &impl Abort, tally: &mut Tally<'_, '_, A>, rect: Rect) {
    let areas = tally.areas(rect).expect(rt, "no memory for the areas");
    let counts = tally.census(rect).expect(rt, "no memory for the census");
    check_pairs(rt, &areas, &counts);
}

// Compares those of 300 rectangles.
fn check_tree(rt: &(impl Abort + AllocGlobal), level: &Level<'_>, first: u64) {
    let tree = sectors_of(rt, level);
    let mut tally = Tally::of(rt.alloc(), &tree).expect(rt, "no memory for the tally");
    for i in 0..300u64 {
        check_made(rt, &mut tally, made_rect(rt, first ^ i));
    }
}

fn check_file(rt: &(impl Abort + AllocGlobal), file: Vec<u8>, first: u64) {
    check_tree(rt, &level_of(rt, &file), first);
}

#[test]
fn areas_are_census_pairs(rt: HostRuntime) {
    for seed in 0..12u64 {
        check_file(&rt, made_tree(&rt, Shape::Bush, seed, 1), seed << 12);
        check_file(&rt, made_tree(&rt, Shape::Bush, seed, 30), seed << 16);
        check_file(&rt, made_tree(&rt, Shape::Chain, seed, 30), seed << 20);
    }
}

// How many growths a call asks for, and which: each is refused in turn, until none is.
fn growths_of(
    rt: &(impl Abort + AllocGlobal),
    tree: &Tree<'_, '_>,
    rect: Rect,
    areas: bool,
) -> u64 {
    for n in 1..60u64 {
        let heap = Refusing::new(rt.alloc(), n);
        let refused = if areas {
            tree.areas(&heap, rect).is_err()
        } else {
            tree.census(&heap, rect).is_err()
        };
        assert!(rt; refused == heap.has_refused());
        if !refused {
            return n;
        }
    }
    60
}

fn check_growths(rt: &(impl Abort + AllocGlobal), level: &Level<'_>, first: u64) {
    let tree = tree_of(rt, level);
    for i in 0..40u64 {
        let rect = made_rect(rt, first ^ i);
        let growths = growths_of(rt, &tree, rect, true);
        assert!(rt; growths <= growths_of(rt, &tree, rect, false) && growths < 60);
    }
}

fn check_file_growths(rt: &(impl Abort + AllocGlobal), file: Vec<u8>, first: u64) {
    check_growths(rt, &level_of(rt, &file), first);
}

#[test]
fn areas_ask_for_no_growth_more(rt: HostRuntime) {
    check_file_growths(&rt, base(&rt), 1 << 20);
    check_file_growths(&rt, base_with_node(&rt, 0, 0, -1, 1), 2 << 20);
    for seed in 0..6u64 {
        check_file_growths(&rt, made_tree(&rt, Shape::Bush, seed, 30), seed << 16);
        check_file_growths(&rt, made_tree(&rt, Shape::Chain, seed, 30), seed << 12);
    }
}

// Whether the areas of a small rectangle met growth `n` refused; else they are right.
fn is_refused(rt: &(impl Abort + AllocGlobal), tree: &Tree<'_, '_>, n: u64) -> bool {
    let heap = Refusing::new(rt.alloc(), n);
    let result = tree.areas(&heap, rect_of(rt, [-1, 0, 1, 1]));
    assert!(rt; result.is_err() == heap.has_refused());
    if let Ok(areas) = result {
        check_areas(rt, &areas, &[(0, 2), (1, 4)]);
    }
    heap.has_refused()
}

// Growths 1 to 5 are refused in turn, and after each one none; there is no sixth.
fn check_refusals(rt: &(impl Abort + AllocGlobal), level: &Level<'_>) {
    let tree = tree_of(rt, level);
    for n in 1..6 {
        assert!(rt; is_refused(rt, &tree, n));
        assert!(rt; !is_refused(rt, &tree, 0));
    }
    assert!(rt; !is_refused(rt, &tree, 6));
}

#[test]
fn growth_refused(rt: HostRuntime) {
    let file = base(&rt);
    check_refusals(&rt, &level_of(&rt, &file));
}
