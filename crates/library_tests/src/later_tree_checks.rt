//! What is checked of the trees of later nodes.

use crate::compare::check_same;
use crate::later_node_checks::{Case, Digits};
use map_geo::Point;
use map_level::{Code, Finding, Findings};
use node_lumps::LaterNodes;
use node_tree::{LaterTree, is_sound, leaf, tree_findings};
use std::alloc::Allocator;
use std::process::Abort;
use test_refusals::Refusing;

/// The code and the index of a finding.
pub(crate) type Pair = (Code, u32);

/// The tree of nodes.
pub(crate) fn tree_of<'n, 'a>(rt: &impl Abort, nodes: &'n LaterNodes<'a>) -> LaterTree<'n, 'a> {
    LaterTree::of(nodes).expect(rt, "fewer than 2^31 nodes and ssectors")
}

fn is_case_sound(rt: &(impl Abort + AllocGlobal), digits: Digits<'_>) -> bool {
    let case = Case::of(rt, digits);
    let nodes = LaterNodes::read(case.format(), &case.lumps()).expect(rt, "nodes");
    is_sound(rt.alloc(), &tree_of(rt, &nodes)).expect(rt, "memory")
}

pub(crate) fn check_sound(rt: &(impl Abort + AllocGlobal), digits: Digits<'_>, expected: bool) {
    check_same(rt, is_case_sound(rt, digits), expected);
}

// The ssector of a point in nodes that are a sound tree, and how many tests it took.
fn leaf_of(
    rt: &(impl Abort + AllocGlobal),
    nodes: &LaterNodes<'_>,
    x: i32,
    y: i32,
) -> (usize, usize) {
    let tree = tree_of(rt, nodes);
    let sound = is_sound(rt.alloc(), &tree).expect(rt, "memory");
    assert!(rt; sound);
    leaf(&tree, Point::new(x, y).expect(rt, "a point in range"))
}

/// Checks the ssector of a point, and how many tests it took.
pub(crate) fn check_leaf_of(
    rt: &(impl Abort + AllocGlobal),
    nodes: &LaterNodes<'_>,
    point: [i32; 2],
    expected: (usize, usize),
) {
    let [x, y] = point;
    check_same(rt, (x, y, leaf_of(rt, nodes, x, y)), (x, y, expected));
}

/// The same of the nodes of a case.
pub(crate) fn check_leaf(
    rt: &(impl Abort + AllocGlobal),
    digits: Digits<'_>,
    point: [i32; 2],
    expected: (usize, usize),
) {
    let case = Case::of(rt, digits);
    let nodes = LaterNodes::read(case.format(), &case.lumps()).expect(rt, "nodes");
    check_leaf_of(rt, &nodes, point, expected);
}

/// Checks that findings are these.
pub(crate) fn check_list<A: Allocator>(rt: &impl Abort, found: &Findings<A>, expected: &[Pair]) {
    check_same(rt, found.len(), expected.len());
    for (i, (code, index)) in expected.iter().enumerate() {
        let finding = Finding {
            code: *code,
            index: *index,
        };
        check_same(rt, (i, found.get(i)), (i, Some(finding)));
    }
}

/// Checks the findings on nodes.
pub(crate) fn check_findings(
    rt: &(impl Abort + AllocGlobal),
    digits: Digits<'_>,
    expected: &[Pair],
) {
    let case = Case::of(rt, digits);
    let nodes = LaterNodes::read(case.format(), &case.lumps()).expect(rt, "nodes");
    let found = tree_findings(rt.alloc(), &tree_of(rt, &nodes)).expect(rt, "memory");
    check_list(rt, &found, expected);
}

// Whether `tree_findings` met growth `n` refused.
fn is_refused(
    rt: &(impl Abort + AllocGlobal),
    nodes: &LaterNodes<'_>,
    n: u64,
    expected: &[Pair],
) -> bool {
    let heap = Refusing::new(rt.alloc(), n);
    let result = tree_findings(&heap, &tree_of(rt, nodes));
    assert!(rt; result.is_err() == heap.has_refused());
    if let Ok(found) = result {
        check_list(rt, &found, expected);
    }
    heap.has_refused()
}

/// Refuses each of so many growths in turn. Behind the last one the findings are these.
pub(crate) fn check_growths(
    rt: &(impl Abort + AllocGlobal),
    digits: Digits<'_>,
    growths: u8,
    expected: &[Pair],
) {
    let case = Case::of(rt, digits);
    let nodes = LaterNodes::read(case.format(), &case.lumps()).expect(rt, "nodes");
    for n in 0..growths {
        assert!(rt; is_refused(rt, &nodes, u64::from(n) + 1, expected));
    }
    assert!(rt; !is_refused(rt, &nodes, u64::from(growths) + 1, expected));
}
