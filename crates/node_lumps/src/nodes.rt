//! The nodes of a level in a later format.

ghost use Rattle.std.specs.Prelude.{◌≡◌, ◌<◌, ◌^◌, ◌↔◌, length, sum};
ghost use Rattle.std.specs.List.{slice_get};
ghost use Rattle.std.specs.Option.{option_map};
ghost use Rattle.le_rec.specs.Record.{vertex};
ghost use Rattle.le_rec.specs.Table.{records_of};
ghost use Rattle.node_lumps.specs.Format.{seg_size};
ghost use Rattle.node_lumps.specs.Later.{Later, counts_in, end_of, next_seg, ssectors_of, vertex_of};
ghost use Rattle.node_lumps.specs.Reading.{AreBroken, AreJoinedNodes, AreNodes, IsJoinedBroken, deep_nodes, left_by, lumps_of};
ghost use Rattle.node_lumps.specs.Records.{fine_vertex, later_node, later_seg, whole_vertex};

use crate::broken::Broken;
use crate::format::{NodeFormat, NodeLump};
use crate::lumps::{LeftOver, NodeLumps};
use crate::number::u32_at;
use crate::parts::{NODE_SIZE, VERTEX_SIZE, behind_front, read_parts};
use crate::piece::piece_at;
use crate::records::{
    FineVertex, LaterNode, LaterSeg, LaterSsector, fine_vertex, later_node, later_seg,
};
use crate::ssectors::{count_in, sum_of};
use le_rec::{Record, Table, Vertex};
use std::marker::Model;

/// The nodes of a level in a later format. They borrow the lumps, and decode a record when it is asked for.
#[derive(Drop)]
pub struct LaterNodes<'a> {
    format: NodeFormat,
    vertex_count: usize,
    vertexes: &'a [u8],
    new_vertexes: &'a [u8],
    ssectors: &'a [u8],
    segs: &'a [u8],
    nodes: &'a [u8],
    left: LeftOver,
}

impl<'a> Model for LaterNodes<'a> {
    ghost use Rattle.std.specs.Prelude.{◌≤◌, ◌<◌, ◌^◌, ◌/◌, length, sum};
    ghost use Rattle.node_lumps.specs.Later.{Later, counts_in, later_of};

    ghost Value = { Later };

    ghost view = { λ n. later_of n.format n.vertex_count n.vertexes.now n.new_vertexes.now n.ssectors.now n.segs.now n.nodes.now n.left };

    ghost invariant = { λ n. (n.vertex_count ≤ length n.vertexes.now / 4) × (sum (counts_in n.format n.ssectors.now) < 2 ^ 32) };
}

impl<'a> LaterNodes<'a> {
    /// The nodes of a format in the lumps of a level, or the first reason why they are broken. `NodeFormat::of` tells the
    /// format; the tag itself isn't looked at. Nothing is allocated.
    #[tactic(auto, using(crate::proofs::ReadingLemmas::only_deep, crate::proofs::ReadingLemmas::no_deep_reason))]
    pub fn read(format: NodeFormat, lumps: &NodeLumps<'a>) -> Result<LaterNodes<'a>, Broken>
        ensures ok { (found : Later) → (result ≡ Ok found) ↔ AreNodes format (lumps_of lumps.now) found }
        ensures broken { (why : _) → (result ≡ Err why) ↔ AreBroken format (lumps_of lumps.now) why }
    {
        match format {
            NodeFormat::Xnod => read_joined(NodeFormat::Xnod, lumps.vertexes, lumps.nodes),
            NodeFormat::Xgln => read_joined(NodeFormat::Xgln, lumps.vertexes, lumps.ssectors),
            NodeFormat::Xgl2 => read_joined(NodeFormat::Xgl2, lumps.vertexes, lumps.ssectors),
            NodeFormat::Xnd4 => Ok(deep_nodes(lumps)),
        }
    }

    /// The format.
    pub fn format(&self) -> NodeFormat
        ensures { result ≡ self.now.format }
    {
        self.format
    }

    /// How many records of `VERTEXES` the level has.
    pub fn vertex_count(&self) -> usize
        ensures { result ≡ length self.now.vertexes }
    {
        self.vertex_count
    }

    /// How many new vertexes there are.
    pub fn new_vertex_count(&self) -> usize
        ensures { result ≡ length self.now.new_vertexes }
    {
        self.new_vertexes.len() / VERTEX_SIZE
    }

    /// How many ssectors there are.
    pub fn ssector_count(&self) -> usize
        ensures { result ≡ length self.now.ssectors }
    {
        count_in(self.format, self.ssectors)
    }

    /// How many segs there are.
    pub fn seg_count(&self) -> usize
        ensures { result ≡ length self.now.segs }
    {
        self.segs.len() / self.format.seg_size()
    }

    /// How many nodes there are.
    pub fn node_count(&self) -> usize
        ensures { result ≡ length self.now.nodes }
    {
        self.nodes.len() / NODE_SIZE
    }

    /// How many bytes of the lumps are left over.
    pub fn left_over(&self) -> LeftOver
        ensures { result ≡ self.now.left }
    {
        self.left
    }

    /// The vertex of a number: of the level's in `VERTEXES` or, from their number on, of the new ones.
    #[inline]
    pub fn vertex(&self, number: usize) -> Option<FineVertex>
        ensures { result ≡ vertex_of self.now number }
    {
        let count = self.vertex_count;
        if number < count {
            whole_vertex_at(self.vertexes, number)
        } else {
            new_vertex_at(self.new_vertexes, number - count)
        }
    }

    /// The seg of a number, or None where there are fewer.
    #[inline]
    pub fn seg(&self, number: usize) -> Option<LaterSeg>
        ensures { result ≡ slice_get self.now.segs number }
    {
        seg_at(self.format, self.segs, number)
    }

    /// The number of the vertex where a seg of an ssector ends. A GL seg ends where the next seg of the ssector starts, and
    /// the last one where the first does.
    pub fn seg_end(&self, ssector: LaterSsector, number: usize) -> Option<u32>
        ensures { result ≡ end_of self.now ssector number }
    {
        let seg = self.seg(number)?;
        match seg.v2 {
            Some(end) => Some(end),
            None => self.seg_start(next_seg(ssector, number)),
        }
    }

    // Where a seg starts.
    fn seg_start(&self, number: usize) -> Option<u32>
        ensures { result ≡ option_map (λ seg. seg.v1) (slice_get self.now.segs number) }
    {
        let seg = self.seg(number)?;
        Some(seg.v1)
    }

    /// The node of a number, or None where there are fewer.
    #[inline]
    pub fn node(&self, number: usize) -> Option<LaterNode>
        ensures { result ≡ slice_get self.now.nodes number }
    {
        node_at(self.nodes, number)
    }

    // The bytes of the ssectors.
    pub(crate) fn ssectors(&self) -> &'a [u8]
        ensures are { ssectors_of self.now.format result.now ≡ self.now.ssectors }
        ensures few { sum (counts_in self.now.format result.now) < 2 ^ 32 }
    {
        self.ssectors
    }
}

// The nodes of a lump in which all of them stand.
fn read_joined<'a>(
    format: NodeFormat,
    vertexes: &'a [u8],
    lump: &'a [u8],
) -> Result<LaterNodes<'a>, Broken>
    ensures ok { (found : Later) → (result ≡ Ok found) ↔ AreJoinedNodes format vertexes.now lump.now found }
    ensures broken { (why : _) → (result ≡ Err why) ↔ IsJoinedBroken format vertexes.now lump.now why }
{
    let parts = match read_parts(format, lump) {
        Ok(parts) => parts,
        Err(part) => return Err(Broken::EndsWithin(format.lump(), part)),
    };
    let counted = sum_of(parts.ssectors);
    let there = (parts.segs.len() / format.seg_size()) as u64;
    if counted != there {
        return Err(Broken::Segs(counted, there));
    }
    let made = u32_at(lump, 4) as usize;
    let count = vertexes.len() / Vertex::SIZE;
    if made > count {
        return Err(Broken::Vertexes(made as u64, count as u64));
    }
    Ok(LaterNodes {
        format,
        vertex_count: made,
        vertexes,
        new_vertexes: parts.vertexes,
        ssectors: parts.ssectors,
        segs: parts.segs,
        nodes: parts.nodes,
        left: left_by(
            format.lump(),
            vertexes.len() - made * Vertex::SIZE,
            parts.rest.len(),
        ),
    })
}

// What is left over of `VERTEXES` and of the lump in which all nodes stand.
fn left_by(lump: NodeLump, vertexes: usize, rest: usize) -> LeftOver
    ensures { result ≡ left_by lump vertexes rest }
{
    match lump {
        NodeLump::Nodes => LeftOver {
            vertexes,
            segs: 0,
            ssectors: 0,
            nodes: rest,
        },
        NodeLump::Ssectors => LeftOver {
            vertexes,
            segs: 0,
            ssectors: rest,
            nodes: 0,
        },
    }
}

// The nodes of DeePBSP.
fn deep_nodes<'a>(lumps: &NodeLumps<'a>) -> LaterNodes<'a>
    ensures { result ≡ deep_nodes (lumps_of lumps.now) }
{
    let nodes = behind_front(lumps.nodes);
    LaterNodes {
        format: NodeFormat::Xnd4,
        vertex_count: lumps.vertexes.len() / Vertex::SIZE,
        vertexes: lumps.vertexes,
        new_vertexes: &[],
        ssectors: lumps.ssectors,
        segs: lumps.segs,
        nodes,
        left: LeftOver {
            vertexes: lumps.vertexes.len() % Vertex::SIZE,
            segs: lumps.segs.len() % 16,
            ssectors: lumps.ssectors.len() % 6,
            nodes: nodes.len() % NODE_SIZE,
        },
    }
}

// The vertex of a record of `VERTEXES`.
#[inline]
fn whole_vertex_at(vertexes: &[u8], number: usize) -> Option<FineVertex>
    ensures { result ≡ option_map whole_vertex (slice_get (records_of 4 vertex vertexes.now) number) }
{
    let vertex = Table::<'_, Vertex>::of(vertexes).get(number)?;
    Some(FineVertex::of(vertex))
}

#[inline]
fn new_vertex_at(vertexes: &[u8], number: usize) -> Option<FineVertex>
    ensures { result ≡ slice_get (records_of 8 fine_vertex vertexes.now) number }
{
    let piece = piece_at(vertexes, VERTEX_SIZE, number)?;
    Some(fine_vertex(piece))
}

#[inline]
fn seg_at(format: NodeFormat, segs: &[u8], number: usize) -> Option<LaterSeg>
    ensures { result ≡ slice_get (records_of (seg_size format) (later_seg format) segs.now) number }
{
    let piece = piece_at(segs, format.seg_size(), number)?;
    Some(later_seg(format, piece))
}

#[inline]
fn node_at(nodes: &[u8], number: usize) -> Option<LaterNode>
    ensures { result ≡ slice_get (records_of 32 later_node nodes.now) number }
{
    let piece = piece_at(nodes, NODE_SIZE, number)?;
    Some(later_node(piece))
}

// The seg behind one in its ssector; behind the last one stands the first.
fn next_seg(ssector: LaterSsector, number: usize) -> usize
    ensures { result ≡ next_seg ssector number }
{
    let end = ssector.first as usize + ssector.count as usize;
    if number < end.saturating_sub(1) {
        number + 1
    } else {
        ssector.first as usize
    }
}
