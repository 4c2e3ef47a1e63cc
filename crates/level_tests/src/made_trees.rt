//! Levels with made trees of nodes: each ssector has a sector of its own, and partitions go in all directions.

ghost use Rattle.std.specs.Prelude.{◌<◌, ◌≤◌};

use crate::census_cases::shuffled;
use crate::sample::{SECTORS, SIDEDEFS, base_with, node_with};
use std::alloc::{AllocError, Global};
use std::process::Abort;

/// How the nodes of a tree hang together.
#[derive(Clone, Copy, PartialEq, Eq)]
pub enum Shape {
    /// Each node is a child of the next, at one side or the other.
    Chain,
    /// All ssectors are about as deep.
    Bush,
}

// Up and down, along a row, over a corner, flat, steep, and no direction.
const DIRECTIONS: [(i16, i16); 16] = [
    (0, 8),
    (0, -8),
    (8, 0),
    (-8, 0),
    (5, 5),
    (5, -5),
    (-5, 5),
    (-5, -5),
    (16, 3),
    (-16, 3),
    (16, -3),
    (3, 16),
    (-3, 16),
    (-3, -16),
    (1, 127),
    (0, 0),
];

/// The file of a level of so many nodes, and an ssector and a sector more.
pub fn made_tree(rt: &(impl Abort + AllocGlobal), shape: Shape, seed: u64, nodes: u16) -> Vec<u8> {
    assert!(rt; 0 < nodes && nodes <= 100);
    let lumps = tree_lumps(rt.alloc(), shape, seed, nodes).expect(rt, "no memory for a tree");
    base_with(
        rt,
        &[
            (2, &lumps.linedefs),
            (3, &lumps.sidedefs),
            (5, &lumps.segs),
            (6, &lumps.ssectors),
            (7, &lumps.nodes),
            (8, &lumps.sectors),
        ],
    )
}

// The lumps of a level that a tree changes.
#[derive(Drop)]
struct TreeLumps {
    linedefs: Vec<u8>,
    sidedefs: Vec<u8>,
    segs: Vec<u8>,
    ssectors: Vec<u8>,
    nodes: Vec<u8>,
    sectors: Vec<u8>,
}

fn tree_lumps(alloc: Global, shape: Shape, seed: u64, nodes: u16) -> Result<TreeLumps, AllocError>
    requires { nodes ≤ 100 }
{
    let mut lumps = TreeLumps {
        linedefs: Vec::new(alloc),
        sidedefs: Vec::new(alloc),
        segs: Vec::new(alloc),
        ssectors: Vec::new(alloc),
        nodes: Vec::new(alloc),
        sectors: Vec::new(alloc),
    };
    for t in 0..=nodes {
        add_sector(&mut lumps, t)?;
    }
    for n in 0..nodes {
        add_node(
            &mut lumps.nodes,
            partition(seed, n),
            children(shape, seed, nodes, n),
        )?;
    }
    Ok(lumps)
}

// Ssector t, whose one seg is of linedef t, whose one sidedef is in sector t.
fn add_sector(lumps: &mut TreeLumps, t: u16) -> Result<(), AllocError> {
    let number = t.to_le_bytes();
    lumps.sectors.extend_from_slice(&SECTORS[..26])?;
    lumps.sidedefs.extend_from_slice(&SIDEDEFS[..28])?;
    lumps.sidedefs.extend_from_slice(&number)?;
    lumps
        .linedefs
        .extend_from_slice(&[0, 0, 1, 0, 1, 0, 0, 0, 0, 0])?;
    lumps.linedefs.extend_from_slice(&number)?;
    lumps.linedefs.extend_from_slice(&[255, 255])?;
    lumps.segs.extend_from_slice(&[0, 0, 1, 0, 0, 64])?;
    lumps.segs.extend_from_slice(&number)?;
    lumps.segs.extend_from_slice(&[0, 0, 0, 0])?;
    lumps.ssectors.extend_from_slice(&[1, 0])?;
    lumps.ssectors.extend_from_slice(&number)
}

fn add_node(nodes: &mut Vec<u8>, line: [i16; 4], words: (u16, u16)) -> Result<(), AllocError> {
    let node = node_with(line);
    nodes.extend_from_slice(&node[..24])?;
    nodes.extend_from_slice(&words.0.to_le_bytes())?;
    nodes.extend_from_slice(&words.1.to_le_bytes())
}

// A partition about the origin.
fn partition(seed: u64, n: u16) -> [i16; 4] {
    let turn = shuffled(seed ^ u64::from(n) << 8);
    let x = (turn & 63) as i16 - 32;
    let y = (turn >> 6 & 63) as i16 - 32;
    let (dx, dy) = DIRECTIONS[(turn >> 12 & 15) as usize];
    [x, y, dx, dy]
}

// The child words of node n: in a chain the node before it and an ssector, and in a bush two of a row of all
// ssectors and then all nodes.
fn children(shape: Shape, seed: u64, nodes: u16, n: u16) -> (u16, u16)
    requires few { nodes ≤ 100 }
    requires there { n < nodes }
{
    if shape == Shape::Bush {
        return (word_of(nodes, 2 * n), word_of(nodes, 2 * n + 1));
    }
    let before = if n == 0 { 32768 } else { n - 1 };
    let ssector = 32769 + n;
    if shuffled(seed ^ u64::from(n)) & 1 == 0 {
        (before, ssector)
    } else {
        (ssector, before)
    }
}

// The word at a place of that row.
fn word_of(nodes: u16, place: u16) -> u16
    requires few { nodes ≤ 100 }
    requires there { place < 200 }
{
    if place <= nodes {
        32768 + place
    } else {
        place - nodes - 1
    }
}
