//! The sample level's file and files made of it. If memory runs out they end the process, so that a test is a row of calls.

pub use sample_level::{Ends, LINE_WITHOUT_SIDE_1, Lump, SECTORS, SEGS, SIDEDEFS, lumps};
use sample_level::{NODES, NOT_REACHED, lines_round, packed, packed_with, packed_with_lines};
use std::alloc::{AllocError, Global};
use std::process::Abort;

const NO_MEMORY: &str = "no memory for the sample";

/// The lumps, packed.
pub fn pack(rt: &(impl Abort + AllocGlobal), lumps: &[Lump<'_>]) -> Vec<u8> {
    pack_both(rt, lumps, &[])
}

/// The lumps and others behind them, packed.
pub fn pack_both(
    rt: &(impl Abort + AllocGlobal),
    lumps: &[Lump<'_>],
    others: &[Lump<'_>],
) -> Vec<u8> {
    packed(rt.alloc(), lumps, others, &[]).expect(rt, NO_MEMORY)
}

/// The sample level's file.
pub fn base(rt: &(impl Abort + AllocGlobal)) -> Vec<u8> {
    pack(rt, &lumps())
}

/// The sample level's file with other bytes in lumps, by their numbers from 1 to 10.
pub fn base_with(rt: &(impl Abort + AllocGlobal), changes: &[(usize, &[u8])]) -> Vec<u8> {
    packed_with(rt.alloc(), changes).expect(rt, NO_MEMORY)
}

/// The sample level's file with two nodes and two ssectors that the root doesn't lead to.
pub fn base_not_reached(rt: &(impl Abort + AllocGlobal)) -> Vec<u8> {
    base_with(rt, &NOT_REACHED)
}

/// The sample level's file with other linedefs, each with a side in front alone, of sector 0, and with so many vertexes.
pub fn base_with_lines(rt: &(impl Abort + AllocGlobal), lines: &[Ends], count: u16) -> Vec<u8> {
    packed_with_lines(rt.alloc(), lines, count).expect(rt, NO_MEMORY)
}

/// Linedefs round a sector: each goes from a vertex to the next one, and the last one back to the first.
pub fn round(rt: &(impl Abort + AllocGlobal), count: u16) -> Vec<Ends> {
    round_and(rt, count, &[])
}

/// The same, and linedefs besides.
pub fn round_and(rt: &(impl Abort + AllocGlobal), count: u16, others: &[Ends]) -> Vec<Ends> {
    lines_round(rt.alloc(), count, others).expect(rt, NO_MEMORY)
}

// A node that goes through (0, 10) along (64, 0); its children are node 0 and ssector 2.
const ROOT_OF_TWO: [u8; 28] = [
    0, 0, 10, 0, 64, 0, 0, 0, 0, 0, 0, 0, 0, 0, 0, 0, 0, 0, 0, 0, 0, 0, 0, 0, 0, 0, 2, 128,
];

const THREE_SSECTORS: [u8; 12] = [1, 0, 0, 0, 1, 0, 1, 0, 1, 0, 1, 0];

/// The sample level's file with a second node above its own, and a third ssector.
pub fn base_two_nodes(rt: &(impl Abort + AllocGlobal)) -> Vec<u8> {
    let nodes = joined(rt.alloc(), &NODES, &ROOT_OF_TWO).expect(rt, NO_MEMORY);
    base_with(rt, &[(6, &THREE_SSECTORS), (7, &nodes)])
}

fn joined(alloc: Global, first: &[u8], second: &[u8]) -> Result<Vec<u8>, AllocError> {
    let mut bytes = Vec::from_slice(alloc, first)?;
    bytes.extend_from_slice(second)?;
    Ok(bytes)
}

/// The sample level's file with so many nodes, at most 32767, each the front child of the next.
pub fn base_chain(rt: &(impl Abort + AllocGlobal), count: u16) -> Vec<u8> {
    let nodes = chain(rt, count);
    let ssectors = copies(rt.alloc(), &[1, 0, 0, 0], count).expect(rt, NO_MEMORY);
    let all = joined(rt.alloc(), &[1, 0, 0, 0], &ssectors).expect(rt, NO_MEMORY);
    base_with(rt, &[(6, &all), (7, &nodes)])
}

fn chain(rt: &(impl Abort + AllocGlobal), count: u16) -> Vec<u8> {
    assert!(rt; 0 < count && count <= 32767);
    let mut nodes = nodes_with(rt, &[(32768, 32769)]);
    for i in 1..count {
        push_node(&mut nodes, i - 1, 32769 + i).expect(rt, NO_MEMORY);
    }
    nodes
}

/// Nodes of the sample level's geometry with these children.
pub fn nodes_with(rt: &(impl Abort + AllocGlobal), children: &[(u16, u16)]) -> Vec<u8> {
    let mut nodes = Vec::new(rt.alloc());
    for (front, back) in children {
        push_node(&mut nodes, *front, *back).expect(rt, NO_MEMORY);
    }
    nodes
}

fn push_node(nodes: &mut Vec<u8>, front: u16, back: u16) -> Result<(), AllocError> {
    nodes.extend_from_slice(&NODES[..24])?;
    nodes.extend_from_slice(&front.to_le_bytes())?;
    nodes.extend_from_slice(&back.to_le_bytes())
}

fn copies(alloc: Global, bytes: &[u8], count: u16) -> Result<Vec<u8>, AllocError> {
    let mut all = Vec::new(alloc);
    for _ in 0..count {
        all.extend_from_slice(bytes)?;
    }
    Ok(all)
}

/// The sample level's file with a node of these first four fields.
pub fn base_with_node(
    rt: &(impl Abort + AllocGlobal),
    x: i16,
    y: i16,
    dx: i16,
    dy: i16,
) -> Vec<u8> {
    base_with(rt, &[(7, &node_with([x, y, dx, dy]))])
}

/// The sample level's node with these first four fields.
pub fn node_with(line: [i16; 4]) -> [u8; 28] {
    let mut node = NODES;
    for (i, number) in line.iter().enumerate() {
        let [low, high] = number.to_le_bytes();
        node[2 * i] = low;
        node[2 * i + 1] = high;
    }
    node
}
