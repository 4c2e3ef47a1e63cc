//! Censuses of rectangles: counts and work, each growth refused in turn, and a plain loop over points.

use crate::compare::check_same;
use crate::opening::{level_of, tree_of};
use crate::sample::{base, base_chain, base_two_nodes, base_with, base_with_node};
use map_geo::{Point, Rect};
use map_level::Level;
use map_tree::{Counts, Tree};
use std::alloc::Allocator;
use std::process::Abort;
use test_refusals::Refusing;

// A rectangle, the pairs of its census, and its tests and pending pieces.
type Case = ([i32; 4], &'static [(u16, u32)], (u64, u32));

/// The rectangle of these bounds.
pub fn rect_of(rt: &impl Abort, bounds: [i32; 4]) -> Rect {
    let [x0, y0, x1, y1] = bounds;
    Rect::new(x0, y0, x1, y1).expect(rt, "a rectangle")
}

fn check_counts<A: Allocator>(rt: &impl Abort, counts: &Counts<A>, pairs: &[(u16, u32)]) {
    check_same(rt, counts.len(), pairs.len());
    for (i, pair) in pairs.iter().enumerate() {
        check_same(rt, (i, counts.get(i)), (i, Some(*pair)));
    }
    check_same(rt, counts.get(pairs.len()), None);
}

// Compares the census of a rectangle.
fn check_census(rt: &(impl Abort + AllocGlobal), tree: &Tree<'_, '_>, case: Case) {
    let (bounds, pairs, (tests, pending)) = case;
    let census = tree.census(rt.alloc(), rect_of(rt, bounds));
    let counts = census.expect(rt, "no memory for the census");
    check_counts(rt, &counts, pairs);
    check_same(rt, counts.tests(), tests);
    check_same(rt, counts.pending(), pending);
}

fn check_level(rt: &(impl Abort + AllocGlobal), level: &Level<'_>, cases: &[Case]) {
    let tree = tree_of(rt, level);
    for case in cases {
        check_census(rt, &tree, *case);
    }
}

// Opens the level of a file and compares the censuses of rectangles.
fn check_censuses(rt: &(impl Abort + AllocGlobal), file: Vec<u8>, cases: &[Case]) {
    check_level(rt, &level_of(rt, &file), cases);
}

// The accepted level without nodes.
fn no_nodes(rt: &(impl Abort + AllocGlobal)) -> Vec<u8> {
    base_with(rt, &[(6, &[1, 0, 0, 0]), (7, &[])])
}

const OF_BASE: [Case; 3] = [
    ([5, 0, 9, 9], &[(0, 50)], (1, 1)),
    (
        [0, 0, 1023, 1023],
        &[(0, 1_047_552), (1, 1024)],
        (12287, 12),
    ),
    ([-1, 0, 1, 1], &[(0, 2), (1, 4)], (7, 3)),
];

const OF_NO_NODES: [Case; 1] = [([5, 0, 9, 9], &[(0, 50)], (0, 1))];

const OF_TWO_NODES: [Case; 1] = [([-1, 9, 1, 11], &[(0, 2), (1, 7)], (11, 3))];

const OF_CHAIN: [Case; 1] = [([1, 0, 1024, 1023], &[(0, 1_048_576)], (32767, 1))];

#[test]
fn census_work(rt: HostRuntime) {
    check_censuses(&rt, base(&rt), &OF_BASE);
    check_censuses(&rt, no_nodes(&rt), &OF_NO_NODES);
    check_censuses(&rt, base_two_nodes(&rt), &OF_TWO_NODES);
    check_censuses(&rt, base_chain(&rt, 32767), &OF_CHAIN);
}

// How many points of a rectangle lie in sectors 0 and 1, point by point.
fn plain_counts(rt: &impl Abort, tree: &Tree<'_, '_>, rect: Rect) -> [u32; 2] {
    let mut counts = [0u32; 2];
    for y in rect.y0()..=rect.y1() {
        for x in rect.x0()..=rect.x1() {
            let point = Point::new(x, y).expect(rt, "a point in range");
            match tree.sector(point) {
                0 => counts[0] = counts[0].wrapping_add(1),
                1 => counts[1] = counts[1].wrapping_add(1),
                _ => assert!(rt; false, "a sector of the sample level"),
            }
        }
    }
    counts
}

// Compares a census with the plain counts.
fn check_plain(rt: &(impl Abort + AllocGlobal), tree: &Tree<'_, '_>, rect: Rect) {
    let counts = tree
        .census(rt.alloc(), rect)
        .expect(rt, "no memory for the census");
    let [zeros, ones] = plain_counts(rt, tree, rect);
    let both = [(0, zeros), (1, ones)];
    match (zeros > 0, ones > 0) {
        (true, true) => check_counts(rt, &counts, &both),
        (true, false) => check_counts(rt, &counts, &both[..1]),
        (false, _) => check_counts(rt, &counts, &both[1..]),
    }
}

/// A number that looks random.
pub fn shuffled(seed: u64) -> u64 {
    let mixed = (seed ^ (seed >> 15)).wrapping_mul(0x9e37_79b9_7f4a_7c15);
    (mixed ^ (mixed >> 29)).wrapping_mul(0xbf58_476d_1ce4_e5b9) >> 20
}

/// A rectangle of at most 64 columns and rows about the origin.
pub fn small_rect(rt: &impl Abort, seed: u64) -> Rect {
    let x0 = (shuffled(seed) & 127) as i32 - 96;
    let y0 = (shuffled(seed ^ 1000) & 127) as i32 - 96;
    let columns = (shuffled(seed ^ 2000) & 63) as i32;
    let rows = (shuffled(seed ^ 3000) & 63) as i32;
    rect_of(rt, [x0, y0, x0 + columns, y0 + rows])
}

// Compares the censuses of 400 rectangles with plain counts.
fn check_tree(rt: &(impl Abort + AllocGlobal), level: &Level<'_>, first: u64) {
    let tree = tree_of(rt, level);
    for i in 0..400u64 {
        check_plain(rt, &tree, small_rect(rt, first ^ i));
    }
}

// Compares those of a file's level.
fn check_all_plain(rt: &(impl Abort + AllocGlobal), file: Vec<u8>, first: u64) {
    check_tree(rt, &level_of(rt, &file), first);
}

#[test]
fn censuses_are_plain_counts(rt: HostRuntime) {
    check_all_plain(&rt, base(&rt), 1 << 20);
    check_all_plain(&rt, base_with_node(&rt, 0, 0, -1, 1), 2 << 20);
    check_all_plain(&rt, base_two_nodes(&rt), 3 << 20);
    check_all_plain(&rt, no_nodes(&rt), 4 << 20);
    check_all_plain(&rt, base_chain(&rt, 20), 5 << 20);
}

// Whether the census of a small rectangle met growth `n` refused.
fn is_refused(rt: &(impl Abort + AllocGlobal), tree: &Tree<'_, '_>, n: u64) -> bool {
    let heap = Refusing::new(rt.alloc(), n);
    let result = tree.census(&heap, rect_of(rt, [-1, 0, 1, 1]));
    assert!(rt; result.is_err() == heap.has_refused());
    if let Ok(counts) = result {
        check_counts(rt, &counts, &[(0, 2), (1, 4)]);
    }
    heap.has_refused()
}

// Growths 1 to 5 are refused in turn, and after each one none; there is no sixth.
fn check_growths(rt: &(impl Abort + AllocGlobal), level: &Level<'_>) {
    let tree = tree_of(rt, level);
    for n in 1..6 {
        assert!(rt; is_refused(rt, &tree, n));
        assert!(rt; !is_refused(rt, &tree, 0));
    }
    assert!(rt; !is_refused(rt, &tree, 6));
}

#[test]
fn growth_refused(rt: HostRuntime) {
    let file = base(&rt);
    check_growths(&rt, &level_of(&rt, &file));
}
