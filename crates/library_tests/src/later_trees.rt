//! Nodes in later formats as trees: the worked cases, by the lumps of `later_nodes.rt`.

use crate::later_engines::bytes_of;
use crate::later_node_checks::{Digits, of_nodes, of_ssectors};
use crate::later_nodes::{
    BESIDE_SEGS, BYTES_BEHIND, DEEP, DEEP_LEFT_OVER, DEEP_TAG_ALONE, EMPTY_AT_THE_END, EMPTY_FIRST,
    NAMES_NOTHING, NO_NODES, NODES_FIRST, NOTHING_AT_ALL, ROOT_NAMED, THIRD_VERTEX, XGLN, XNOD,
};
use crate::later_tree_checks::{
    check_findings, check_growths, check_leaf, check_leaf_of, check_sound,
};
use map_level::Code;
use node_lumps::{LaterNodes, NodeFormat, NodeLumps};
use std::process::Abort;

// Points in front of the partition, on it and behind it: one test each.
fn check_both(rt: &(impl Abort + AllocGlobal), digits: Digits<'_>) {
    check_leaf(rt, digits, [5, 5], (0, 1));
    check_leaf(rt, digits, [0, 5], (1, 1));
    check_leaf(rt, digits, [-5, 70], (1, 1));
}

#[test]
fn xnod_points(rt: HostRuntime) {
    check_both(&rt, of_nodes(XNOD));
}

#[test]
fn xnod_points_beside_segs_and_ssectors(rt: HostRuntime) {
    check_both(&rt, BESIDE_SEGS);
}

#[test]
fn xnod_points_before_bytes_left_over(rt: HostRuntime) {
    check_both(&rt, of_nodes(BYTES_BEHIND));
}

#[test]
fn xnod_points_beside_a_third_vertex(rt: HostRuntime) {
    check_both(&rt, THIRD_VERTEX);
}

// Node 1, the root, runs from (0, 32) to the right. Above it node 0 parts what is left.
#[test]
fn xnod_points_beside_an_empty_ssector(rt: HostRuntime) {
    let digits = of_nodes(EMPTY_FIRST);
    check_leaf(&rt, digits, [5, 5], (0, 1));
    check_leaf(&rt, digits, [5, 50], (1, 2));
    check_leaf(&rt, digits, [-5, 50], (2, 2));
    check_leaf(&rt, digits, [5, 32], (0, 1));
}

// No side is tested.
#[test]
fn xnod_points_without_nodes(rt: HostRuntime) {
    let digits = of_nodes(NO_NODES);
    check_leaf(&rt, digits, [5, 5], (0, 0));
    check_leaf(&rt, digits, [-5, 5], (0, 0));
}

#[test]
fn xnod_tree(rt: HostRuntime) {
    let digits = of_nodes(XNOD);
    check_sound(&rt, digits, true);
    check_findings(&rt, digits, &[]);
}

#[test]
fn xnod_tree_and_an_ssector(rt: HostRuntime) {
    let digits = of_nodes(EMPTY_AT_THE_END);
    check_sound(&rt, digits, false);
    check_findings(&rt, digits, &[(Code::F16, 2)]);
}

// By neither of two children.
#[test]
fn xnod_tree_that_names_nothing(rt: HostRuntime) {
    let digits = of_nodes(NAMES_NOTHING);
    check_sound(&rt, digits, false);
    let expected = [(Code::F11, 0), (Code::F16, 0), (Code::F16, 1)];
    check_findings(&rt, digits, &expected);
}

// Node 1, which isn't reached, names the root.
#[test]
fn xnod_tree_with_the_root_named(rt: HostRuntime) {
    let digits = of_nodes(ROOT_NAMED);
    check_sound(&rt, digits, false);
    let expected = [
        (Code::F12, 1),
        (Code::F13, 2),
        (Code::F14, 1),
        (Code::F15, 0),
        (Code::F15, 1),
        (Code::N7, 2),
    ];
    check_findings(&rt, digits, &expected);
}

// Node 0 is reached, and names itself. Its ssectors have no segs.
#[test]
fn xnod_tree_that_turns_round(rt: HostRuntime) {
    let digits = of_nodes(
        b"584e4f440200000000000000020000000000000000000000000000000200000000000000000040000000000000000000\
          000000000000000000000000010000800000000000004000000000000000000000000000000000000000000000000080",
    );
    check_sound(&rt, digits, false);
    check_findings(&rt, digits, &[(Code::F13, 0)]);
}

#[test]
fn xnod_tree_without_nodes(rt: HostRuntime) {
    let digits = of_nodes(NO_NODES);
    check_sound(&rt, digits, true);
    check_findings(&rt, digits, &[]);
}

// Without an ssector nothing is found on nodes, and the tree isn't sound.
#[test]
fn xnod_tree_of_nothing_at_all(rt: HostRuntime) {
    let digits = of_nodes(NOTHING_AT_ALL);
    check_sound(&rt, digits, false);
    check_findings(&rt, digits, &[]);
}

#[test]
fn deep_points(rt: HostRuntime) {
    check_both(&rt, DEEP);
}

#[test]
fn deep_points_before_bytes_left_over(rt: HostRuntime) {
    check_both(&rt, DEEP_LEFT_OVER);
}

#[test]
fn deep_points_without_nodes(rt: HostRuntime) {
    check_leaf(&rt, DEEP_TAG_ALONE, [5, 5], (0, 0));
}

#[test]
fn gl_points(rt: HostRuntime) {
    check_both(&rt, of_ssectors(XGLN));
}

#[test]
fn nodes_goes_first_for_points(rt: HostRuntime) {
    check_both(&rt, NODES_FIRST);
}

const CHAIN: u32 = 250_000;

// The bit of a child word that says that it names an ssector.
const SSECTOR: u32 = 0x8000_0000;

fn push_number(rt: &impl Abort, lump: &mut Vec<u8>, number: u32) {
    lump.extend_from_slice(&number.to_le_bytes())
        .expect(rt, "memory");
}

// A node from (0, 0) upwards, its boxes all 0.
fn push_node(rt: &impl Abort, lump: &mut Vec<u8>, front: u32, back: u32) {
    push_number(rt, lump, 0);
    push_number(rt, lump, 0x40_0000);
    for _word in 0..4 {
        push_number(rt, lump, 0);
    }
    push_number(rt, lump, front);
    push_number(rt, lump, back);
}

// XNOD nodes, each with an ssector in front and the node before it behind. All ssectors are without segs.
fn chain(rt: &(impl Abort + AllocGlobal)) -> Vec<u8> {
    let mut lump = bytes_of(rt, b"584e4f440200000000000000");
    push_number(rt, &mut lump, CHAIN + 1);
    for _ssector in 0..CHAIN + 1 {
        push_number(rt, &mut lump, 0);
    }
    push_number(rt, &mut lump, 0);
    push_number(rt, &mut lump, CHAIN);
    for node in 0..CHAIN {
        let back = if node == 0 { SSECTOR + CHAIN } else { node - 1 };
        push_node(rt, &mut lump, SSECTOR + node, back);
    }
    lump
}

// The root is the last node, and its ssector has that number.
#[test]
fn chain_of_later_nodes(rt: HostRuntime) {
    let lump = chain(&rt);
    let lumps = NodeLumps {
        vertexes: &[0; 8],
        segs: &[],
        ssectors: &[],
        nodes: lump.as_slice(),
    };
    let nodes = LaterNodes::read(NodeFormat::Xnod, &lumps).expect(&rt, "nodes");
    check_leaf_of(&rt, &nodes, [5, 5], (249_999, 1));
    check_leaf_of(&rt, &nodes, [-5, 5], (250_000, 250_000));
}

// The counts of words, the marks, the places that wait, and then the findings.
#[test]
fn growth_refused(rt: HostRuntime) {
    check_growths(&rt, of_nodes(XNOD), 3, &[]);
    check_growths(&rt, of_nodes(EMPTY_AT_THE_END), 4, &[(Code::F16, 2)]);
}
