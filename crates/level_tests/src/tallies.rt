//! One tally for many rectangles: it gives each its own points, also after one that was refused a
//! growth.

use crate::compare::check_same;
use crate::opening::{level_of, sectors_of};
use crate::sample::base;
use map_geo::Rect;
use map_level::Level;
use map_tree::{Counts, SectorTree, Tally};
use std::alloc::Allocator;
use std::process::Abort;
use test_refusals::Refusing;

// Rectangles and the pairs of their censuses.
const CASES: [([i32; 4], &[(u16, u32)]); 4] = [
    ([-1, 0, 1, 1], &[(0, 2), (1, 4)]),
    ([0, 0, 0, 0], &[(1, 1)]),
    ([5, 0, 5, 0], &[(0, 1)]),
    ([-1, 0, 1, 1], &[(0, 2), (1, 4)]),
];

fn check_counts<A: Allocator>(rt: &impl Abort, counts: &Counts<A>, pairs: &[(u16, u32)]) {
    check_same(rt, counts.len(), pairs.len());
    for (i, pair) in pairs.iter().enumerate() {
        check_same(rt, (i, counts.get(i)), (i, Some(*pair)));
    }
}

// Whether a rectangle is refused a growth; else it has its pairs.
fn is_census_refused<A: Allocator + Copy>(
    rt: &impl Abort,
    tally: &mut Tally<'_, '_, A>,
    bounds: [i32; 4],
    pairs: &[(u16, u32)],
) -> bool {
    let [x0, y0, x1, y1] = bounds;
    let rect = Rect::new(x0, y0, x1, y1).expect(rt, "a rectangle");
    match tally.census(rect) {
        Ok(counts) => {
            check_counts(rt, &counts, pairs);
            false
        }
        Err(_) => true,
    }
}

// How many of the rectangles are refused a growth; the others have their pairs.
fn count_refused<A: Allocator + Copy>(rt: &impl Abort, tally: &mut Tally<'_, '_, A>) -> usize {
    let mut refused: usize = 0;
    for (bounds, pairs) in CASES {
        if is_census_refused(rt, tally, bounds, pairs) {
            refused = refused.wrapping_add(1);
        }
    }
    refused
}

// Whether growth `n` was refused: to the tally, or to one census alone.
fn is_refused<B: Allocator>(
    rt: &impl Abort,
    heap: &Refusing,
    tree: &SectorTree<'_, '_, B>,
) -> bool {
    match Tally::of(heap, tree) {
        Ok(tally) => {
            let mut tally = tally;
            let refused = count_refused(rt, &mut tally);
            assert!(rt; refused == usize::from(heap.has_refused()));
        }
        Err(_) => assert!(rt; heap.has_refused()),
    }
    heap.has_refused()
}

// Each growth is refused in turn until none is.
fn check_growths<B: Allocator>(rt: &(impl Abort + AllocGlobal), tree: &SectorTree<'_, '_, B>) {
    let mut met = 0;
    for n in 1..30 {
        if !is_refused(rt, &Refusing::new(rt.alloc(), n), tree) {
            break;
        }
        met = n;
    }
    assert!(rt; 4 < met && met < 29);
}

fn check_level(rt: &(impl Abort + AllocGlobal), level: &Level<'_>) {
    let tree = sectors_of(rt, level);
    check_growths(rt, &tree);
}

#[test]
fn one_tally(rt: HostRuntime) {
    let file = base(&rt);
    check_level(&rt, &level_of(&rt, &file));
}
