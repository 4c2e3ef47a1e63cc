//! One pass over segs and one over ssectors with the tests of all their codes: most levels have no finding there, and the
//! codes then need no pass of their own.

ghost use Rattle.std.specs.Prelude.{◌≡◌, ◌↔◌, ◌<◌, ◌^◌, ℕ, IsTrue, length};
ghost use Rattle.later_levels.specs.TableBounds.{AreBounds, SegFound, SsectorFound};

use crate::later_level::LaterLevel;
use crate::seg_faults::{
    seg_linedef_names_none, seg_side_other, seg_vertex_names_none, seg_without_side,
};
use crate::ssector_faults::{ssector_out_of_range, ssector_without_segs};
use map_level::search::bound_where;
use node_lumps::{LaterNodes, Ssectors};
use std::alloc::Allocator;

/// Numbers above all segs and all ssectors at which one of their codes holds: 0 if there are none.
#[derive(Clone, Copy)]
pub struct Bounds {
    pub segs: u32,
    pub ssectors: u32,
}

/// The bounds of a level's segs and ssectors.
pub fn bounds_of<A: Allocator>(one: &LaterLevel<'_, '_>, ssectors: &Ssectors<'_, A>) -> Bounds
    requires { ssectors.now ≡ one.now.later.ssectors }
    ensures { AreBounds one.now result }
{
    Bounds {
        segs: seg_bound(one),
        ssectors: ssector_bound(one.nodes(), ssectors),
    }
}

fn seg_bound(one: &LaterLevel<'_, '_>) -> u32
    ensures { (i : ℕ) → SegFound one.now i → i < result }
{
    let count = one.nodes().seg_count() as u32;
    bound_where(count, |i| is_seg_found(one, i))
}

fn ssector_bound<A: Allocator>(nodes: &LaterNodes<'_>, ssectors: &Ssectors<'_, A>) -> u32
    requires is { ssectors.now ≡ nodes.now.ssectors }
    requires few { length nodes.now.ssectors < 2 ^ 31 }
    ensures { (t : ℕ) → SsectorFound nodes.now t → t < result }
{
    let count = nodes.ssector_count() as u32;
    bound_where(count, |t| is_ssector_found(nodes, ssectors, t))
}

// Whether a code of segs holds at one.
#[inline(always)]
fn is_seg_found(one: &LaterLevel<'_, '_>, i: u32) -> bool
    ensures { IsTrue result ↔ SegFound one.now i }
{
    let nodes = one.nodes();
    seg_vertex_names_none(nodes, i)
        || seg_linedef_names_none(one, i)
        || seg_side_other(nodes, i)
        || seg_without_side(one, i)
}

// Whether a code of ssectors holds at one.
#[inline(always)]
fn is_ssector_found<A: Allocator>(
    nodes: &LaterNodes<'_>,
    ssectors: &Ssectors<'_, A>,
    t: u32,
) -> bool
    requires { ssectors.now ≡ nodes.now.ssectors }
    ensures { IsTrue result ↔ SsectorFound nodes.now t }
{
    ssector_out_of_range(nodes, ssectors, t) || ssector_without_segs(nodes, ssectors, t)
}
