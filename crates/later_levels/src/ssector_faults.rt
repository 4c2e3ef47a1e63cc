//! Tests of later ssectors: one for each code, at an index.

ghost use Rattle.std.specs.Prelude.{◌≡◌, ◌↔◌, ◌+◌, ◌<◌, ◌⊎◌, IsTrue, length};
ghost use Rattle.later_levels.specs.SsectorFaults.{AreGl, AreMinisegs, IsOutOfRange, NoSsector, SsectorOutOfRange, SsectorWithoutSegs};

use crate::lines::line_at;
use node_lumps::{LaterNodes, LaterSsector, NodeLump, Ssectors};
use std::alloc::Allocator;

/// F10 at that index: an ssector's segs are not all there, or with GL nodes none of them runs along a linedef.
#[inline]
pub fn ssector_out_of_range<A: Allocator>(
    nodes: &LaterNodes<'_>,
    ssectors: &Ssectors<'_, A>,
    t: u32,
) -> bool
    requires { ssectors.now ≡ nodes.now.ssectors }
    ensures { IsTrue result ↔ SsectorOutOfRange nodes.now t }
{
    match ssectors.get(t as usize) {
        Some(ssector) => is_wrong(nodes, ssector),
        None => false,
    }
}

#[inline]
fn is_wrong(nodes: &LaterNodes<'_>, ssector: LaterSsector) -> bool
    ensures { IsTrue result ↔ (IsOutOfRange (length nodes.now.segs) ssector ⊎ (AreGl nodes.now × AreMinisegs nodes.now ssector)) }
{
    is_out_of_range(nodes.seg_count(), ssector) || (are_gl(nodes) && are_minisegs(nodes, ssector))
}

// Whether the segs of an ssector aren't all there.
#[inline]
fn is_out_of_range(segs: usize, ssector: LaterSsector) -> bool
    ensures { IsTrue result ↔ IsOutOfRange segs ssector }
{
    let first = ssector.first as usize;
    first >= segs || first + ssector.count as usize > segs
}

// Whether nodes are GL nodes.
#[inline]
fn are_gl(nodes: &LaterNodes<'_>) -> bool
    ensures { IsTrue result ↔ AreGl nodes.now }
{
    match nodes.format().lump() {
        NodeLump::Nodes => false,
        NodeLump::Ssectors => true,
    }
}

// Whether no seg of an ssector runs along a linedef.
fn are_minisegs(nodes: &LaterNodes<'_>, ssector: LaterSsector) -> bool
    ensures { IsTrue result ↔ AreMinisegs nodes.now ssector }
{
    let first = ssector.first as usize;
    for i in first..first + ssector.count as usize {
        if line_at(nodes, i).is_some() {
            return false;
        }
    }
    true
}

/// F17 at that index: there is no ssector.
#[inline]
pub fn no_ssector(nodes: &LaterNodes<'_>, i: u32) -> bool
    ensures { IsTrue result ↔ NoSsector nodes.now i }
{
    i == 0 && nodes.ssector_count() == 0
}

/// N6 at that index: an ssector has no segs.
#[inline]
pub fn ssector_without_segs<A: Allocator>(
    nodes: &LaterNodes<'_>,
    ssectors: &Ssectors<'_, A>,
    t: u32,
) -> bool
    requires { ssectors.now ≡ nodes.now.ssectors }
    ensures { IsTrue result ↔ SsectorWithoutSegs nodes.now t }
{
    // Only the clauses speak of the nodes.
    let _nodes = nodes;
    match ssectors.get(t as usize) {
        Some(ssector) => ssector.count == 0,
        None => false,
    }
}
