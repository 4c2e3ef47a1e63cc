//! The parts of a lump in which all nodes of a level stand.

ghost use Rattle.std.specs.Prelude.{◌≡◌, ◌≤◌, ◌*◌, ◌/◌, ℕ, List, IfErr, IfNone, IfOk, IfSome, drop, length};
ghost use Rattle.node_lumps.specs.Format.{seg_size};
ghost use Rattle.node_lumps.specs.Parts.{BeginsWith, HasParts, IsCutIn, part_name, parts_of};

use crate::format::NodeFormat;
use crate::number::u32_at;

/// A part of a lump in which all nodes of a level stand, in their order.
#[derive(Clone, Copy, Debug, PartialEq, Eq)]
pub enum Part {
    /// The number of vertexes of `VERTEXES`, and the new vertexes.
    Vertexes,
    /// How many segs each ssector has.
    Ssectors,
    Segs,
    Nodes,
}

impl Part {
    /// The name of what stands in the part.
    pub fn name(self) -> &'static str
        ensures { result.now ≡ part_name self }
    {
        match self {
            Part::Vertexes => "vertexes",
            Part::Ssectors => "ssectors",
            Part::Segs => "segs",
            Part::Nodes => "nodes",
        }
    }
}

/// How many bytes stand before the count of the new vertexes: the tag, and the number of vertexes.
const FRONT_SIZE: usize = 8;

/// The number of bytes of a new vertex.
pub(crate) const VERTEX_SIZE: usize = 8;

/// The number of bytes of an ssector's count.
pub(crate) const COUNT_SIZE: usize = 4;

/// The number of bytes of a node.
pub(crate) const NODE_SIZE: usize = 32;

/// The bytes of the records of each part, and those left over.
#[derive(Clone, Copy)]
pub(crate) struct PartSlices<'a> {
    pub(crate) vertexes: &'a [u8],
    pub(crate) ssectors: &'a [u8],
    pub(crate) segs: &'a [u8],
    pub(crate) nodes: &'a [u8],
    pub(crate) rest: &'a [u8],
}

// The bytes of a part's records, and those behind the part.
#[derive(Clone, Copy)]
struct Cut<'a> {
    records: &'a [u8],
    rest: &'a [u8],
}

/// The parts of a lump, or the first that isn't all there.
#[tactic(auto, using(crate::proofs::PartLemmas::parts_joined, crate::proofs::PartLemmas::cut_in_vertexes, crate::proofs::PartLemmas::cut_in_ssectors, crate::proofs::PartLemmas::cut_in_segs, crate::proofs::PartLemmas::cut_in_nodes))]
pub(crate) fn read_parts(format: NodeFormat, lump: &[u8]) -> Result<PartSlices<'_>, Part>
    ensures ok { IfOk result (λ parts. HasParts format lump.now (parts_of parts)) }
    ensures few_ssectors { IfOk result (λ parts. length parts.ssectors.now ≤ 4294967295 * 4) }
    ensures few_segs { IfOk result (λ parts. length parts.segs.now ≤ 4294967295 * seg_size format) }
    ensures cut { IfErr result (λ part. IsCutIn format lump.now part) }
{
    let Some(vertexes) = cut_part(behind_front(lump), VERTEX_SIZE) else {
        return Err(Part::Vertexes);
    };
    let Some(ssectors) = cut_part(vertexes.rest, COUNT_SIZE) else {
        return Err(Part::Ssectors);
    };
    let Some(segs) = cut_part(ssectors.rest, format.seg_size()) else {
        return Err(Part::Segs);
    };
    let Some(nodes) = cut_part(segs.rest, NODE_SIZE) else {
        return Err(Part::Nodes);
    };
    Ok(PartSlices {
        vertexes: vertexes.records,
        ssectors: ssectors.records,
        segs: segs.records,
        nodes: nodes.records,
        rest: nodes.rest,
    })
}

/// The bytes of a lump behind its front, or none where it isn't longer.
pub(crate) fn behind_front(lump: &[u8]) -> &[u8]
    ensures { result.now ≡ drop 8 lump.now }
{
    &lump[FRONT_SIZE.min(lump.len())..]
}

// The part at the front of some bytes, or None where its count or a record isn't all there.
#[inline]
fn cut_part(bytes: &[u8], size: usize) -> Option<Cut<'_>>
    requires { size ≤ 32 }
    ensures some { IfSome result (λ cut. BeginsWith size bytes.now cut.records.now cut.rest.now) }
    ensures few { IfSome result (λ cut. length cut.records.now ≤ 4294967295 * size) }
    ensures none { IfNone result ((records rest : List ℕ) → ¬ BeginsWith size bytes.now records rest) }
{
    if bytes.len() < 4 {
        return None;
    }
    let end = 4 + u32_at(bytes, 0) as usize * size;
    if bytes.len() < end {
        return None;
    }
    Some(Cut {
        records: &bytes[4..end],
        rest: &bytes[end..],
    })
}
