//! Trees of levels: how deep leaves lie, and findings on nodes with each growth refused in turn.

use crate::compare::check_same;
use crate::findings::{NOT_REACHED, Pair, check_list};
use crate::opening::{level_of, tree_of};
use crate::sample::{
    LINE_WITHOUT_SIDE_1, base, base_chain, base_not_reached, base_two_nodes, base_with,
};
use le_rec::{Node, Record};
use map_geo::Point;
use map_level::Level;
use map_tree::{Tree, tree_findings};
use std::alloc::{AllocError, Global};
use std::process::Abort;
use test_refusals::Refusing;

// A node of these first four fields and children.
fn node(line: [i16; 4], children: [u16; 2]) -> Node {
    let [x, y, dx, dy] = line;
    let [child0, child1] = children;
    Node {
        x,
        y,
        dx,
        dy,
        box0: [0; 4],
        box1: [0; 4],
        child0,
        child1,
    }
}

// The bytes of nodes.
fn nodes(alloc: Global, all: &[Node]) -> Result<Vec<u8>, AllocError> {
    let mut lump = Vec::new(alloc);
    for node in all {
        let mut bytes = [0; 28];
        node.write(&mut bytes);
        lump.extend_from_slice(&bytes)?;
    }
    Ok(lump)
}

// A point, its ssector and the number of side tests, and its sector.
type Case = ([i32; 2], (u16, u32), u16);

// Compares the leaf and the sector of a point.
fn check_leaf(rt: &impl Abort, tree: &Tree<'_, '_>, expected: Case) {
    let ([x, y], leaf, sector) = expected;
    let point = Point::new(x, y).expect(rt, "a point in range");
    check_same(rt, (x, y, tree.leaf(point)), (x, y, leaf));
    check_same(rt, (x, y, tree.sector(point)), (x, y, sector));
}

fn check_level(rt: &(impl Abort + AllocGlobal), level: &Level<'_>, expected: &[Case]) {
    let tree = tree_of(rt, level);
    for case in expected {
        check_leaf(rt, &tree, *case);
    }
}

// Opens the level of a file and compares the leaves and sectors of points.
fn check_leaves(rt: &(impl Abort + AllocGlobal), file: Vec<u8>, expected: &[Case]) {
    check_level(rt, &level_of(rt, &file), expected);
}

#[test]
fn base_points(rt: HostRuntime) {
    check_leaves(&rt, base(&rt), &[([0, 5], (1, 1), 1)]);
}

// Without nodes there is one ssector, and no side is tested.
#[test]
fn no_nodes(rt: HostRuntime) {
    let file = base_with(&rt, &[(6, &[1, 0, 0, 0]), (7, &[])]);
    check_leaves(&rt, file, &[([0, 5], (0, 0), 0), ([-9, 16383], (0, 0), 0)]);
}

const OF_TWO_NODES: [Case; 4] = [
    ([1, 5], (0, 2), 0),
    ([1, 10], (0, 2), 0),
    ([0, 5], (1, 2), 1),
    ([1, 11], (2, 1), 1),
];

#[test]
fn two_nodes(rt: HostRuntime) {
    check_leaves(&rt, base_two_nodes(&rt), &OF_TWO_NODES);
}

#[test]
fn chain(rt: HostRuntime) {
    let file = base_chain(&rt, 32767);
    check_leaves(
        &rt,
        file,
        &[([1, 5], (0, 32767), 0), ([0, 5], (32767, 1), 0)],
    );
}

// The file of seven nodes over eight ssectors.
fn base_of_seven(rt: &(impl Abort + AllocGlobal)) -> Vec<u8> {
    let all = [
        node([60, 0, 0, 64], [32774, 32775]),
        node([0, 300, -64, 0], [32773, 0]),
        node([0, 0, 64, 64], [32772, 1]),
        node([50, 0, 0, -64], [32771, 2]),
        node([0, 100, 64, 0], [32770, 3]),
        node([0, 0, 64, 0], [32768, 32769]),
        node([0, 0, 0, 64], [4, 5]),
    ];
    let nodes = nodes(rt.alloc(), &all).expect(rt, "no memory for the nodes");
    base_with(rt, &[(6, &EIGHT_SSECTORS), (7, &nodes)])
}

const EIGHT_SSECTORS: [u8; 32] = [
    1, 0, 0, 0, 1, 0, 1, 0, 1, 0, 0, 0, 1, 0, 1, 0, 1, 0, 0, 0, 1, 0, 1, 0, 1, 0, 0, 0, 1, 0, 1, 0,
];

const DEPTHS: [Case; 9] = [
    ([0, 0], (0, 2), 0),
    ([-5, 1], (1, 2), 1),
    ([1, 100], (2, 2), 0),
    ([50, 101], (3, 3), 1),
    ([200, 101], (4, 4), 0),
    ([51, 301], (5, 5), 1),
    ([61, 300], (6, 6), 0),
    ([101, 101], (6, 6), 0),
    ([60, 200], (7, 6), 1),
];

// Each ssector is met, at depths 2 to 6, by points of both sides and of the lines.
#[test]
fn depths(rt: HostRuntime) {
    check_leaves(&rt, base_of_seven(&rt), &DEPTHS);
}

// Whether `tree_findings` met growth `n` refused.
fn is_refused(
    rt: &(impl Abort + AllocGlobal),
    level: &Level<'_>,
    n: u64,
    expected: &[Pair],
) -> bool {
    let heap = Refusing::new(rt.alloc(), n);
    let result = tree_findings(&heap, level);
    assert!(rt; result.is_err() == heap.has_refused());
    if let Ok(found) = result {
        check_list(rt, &found, expected);
    }
    heap.has_refused()
}

// Refuses growth 1, 2, .. in turn, and then succeeds as if none had been.
fn check_growths_at(
    rt: &(impl Abort + AllocGlobal),
    level: &Level<'_>,
    growths: u8,
    expected: &[Pair],
) {
    for n in 0..growths {
        assert!(rt; is_refused(rt, level, u64::from(n) + 1, expected));
        assert!(rt; !is_refused(rt, level, 0, expected));
    }
    assert!(rt; !is_refused(rt, level, u64::from(growths) + 1, expected));
    assert!(rt; !is_refused(rt, level, 0, expected));
}

fn check_growths(rt: &(impl Abort + AllocGlobal), file: Vec<u8>, growths: u8, expected: &[Pair]) {
    check_growths_at(rt, &level_of(rt, &file), growths, expected);
}

#[test]
fn growth_refused(rt: HostRuntime) {
    check_growths(&rt, base(&rt), 3, &[]);
    check_growths(&rt, base_not_reached(&rt), 4, &NOT_REACHED);
    let side_missing = base_with(&rt, &[(2, &LINE_WITHOUT_SIDE_1)]);
    check_growths(&rt, side_missing, 3, &[]);
    check_growths(&rt, base_with(&rt, &[(9, &[])]), 3, &[]);
}
