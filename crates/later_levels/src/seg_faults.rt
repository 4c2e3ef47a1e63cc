//! Tests of later segs: one for each code, at an index.

ghost use Rattle.std.specs.Prelude.{◌≡◌, ◌↔◌, IsTrue, IsSomeAnd, None};
ghost use Rattle.node_lumps.specs.Later.{vertex_of};
ghost use Rattle.later_levels.specs.SegFaults.{SegLinedefNamesNone, SegSideOther, SegVertexNamesNone, SegWithoutSide};

use crate::later_level::LaterLevel;
use crate::lines::{has_no_side, line_at};
use map_level::links::linedef_count;
use node_lumps::LaterNodes;

// Whether a number names no vertex.
#[inline]
fn names_no_vertex(nodes: &LaterNodes<'_>, number: u32) -> bool
    ensures { IsTrue result ↔ (vertex_of nodes.now number ≡ None) }
{
    nodes.vertex(number as usize).is_none()
}

// Whether there is a number, and it names no vertex.
#[inline]
fn end_names_no_vertex(nodes: &LaterNodes<'_>, end: Option<u32>) -> bool
    ensures { IsTrue result ↔ IsSomeAnd end (λ v. vertex_of nodes.now v ≡ None) }
{
    match end {
        Some(number) => names_no_vertex(nodes, number),
        None => false,
    }
}

/// F6 at that index: a seg's start names no vertex, or its end. A GL seg has no end of its own.
#[inline]
pub fn seg_vertex_names_none(nodes: &LaterNodes<'_>, i: u32) -> bool
    ensures { IsTrue result ↔ SegVertexNamesNone nodes.now i }
{
    match nodes.seg(i as usize) {
        Some(seg) => names_no_vertex(nodes, seg.v1) || end_names_no_vertex(nodes, seg.v2),
        None => false,
    }
}

/// F7 at that index: a seg's linedef names none.
#[inline]
pub fn seg_linedef_names_none(one: &LaterLevel<'_, '_>, i: u32) -> bool
    ensures { IsTrue result ↔ SegLinedefNamesNone one.now i }
{
    match line_at(one.nodes(), i as usize) {
        Some(line) => line.linedef as usize >= linedef_count(one.level()),
        None => false,
    }
}

/// F8 at that index: a seg's side is not 0 or 1.
#[inline]
pub fn seg_side_other(nodes: &LaterNodes<'_>, i: u32) -> bool
    ensures { IsTrue result ↔ SegSideOther nodes.now i }
{
    match line_at(nodes, i as usize) {
        Some(line) => line.side != 0 && line.side != 1,
        None => false,
    }
}

/// F9 at that index: a seg's linedef is there and has no side at the seg's side number, 0 or 1.
#[inline]
pub fn seg_without_side(one: &LaterLevel<'_, '_>, i: u32) -> bool
    ensures { IsTrue result ↔ SegWithoutSide one.now i }
{
    match line_at(one.nodes(), i as usize) {
        Some(line) => has_no_side(one.level(), line),
        None => false,
    }
}
