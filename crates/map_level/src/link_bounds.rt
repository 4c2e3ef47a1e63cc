//! One pass over each table, with the tests of all its codes. Most tables have no finding at all, and then none of their
//! codes needs a pass of its own.

ghost use Rattle.std.specs.Prelude.{◌<◌, ◌↔◌, ℕ, IsTrue};
ghost use Rattle.map_level.specs.LinkBounds.{AreBounds, LinedefFound, SegFound, SsectorFound};

use crate::level::Level;
use crate::link_faults::{
    linedef_of_no_length, linedef_side_names_none, linedef_vertex_names_none, no_side0,
    seg_linedef_names_none, seg_side_other, seg_vertex_names_none, seg_without_side,
    ssector_out_of_range, ssector_without_segs, two_sided_without_side,
};
use crate::search::bound_where;

/// For each table of several codes, a number above the indexes of all records at which one of them holds: 0 if there are
/// none.
#[derive(Clone, Copy)]
pub struct Bounds {
    pub linedefs: u32,
    pub segs: u32,
    pub ssectors: u32,
}

/// The bounds of a level's tables.
pub fn bounds_of(level: &Level<'_>) -> Bounds
    ensures { AreBounds level.now result }
{
    Bounds {
        linedefs: linedef_bound(level),
        segs: seg_bound(level),
        ssectors: ssector_bound(level),
    }
}

fn linedef_bound(level: &Level<'_>) -> u32
    ensures { (i : ℕ) → LinedefFound level.now i → i < result }
{
    let count = level.linedefs().len() as u32;
    bound_where(count, |i| is_linedef_found(level, i))
}

fn seg_bound(level: &Level<'_>) -> u32
    ensures { (i : ℕ) → SegFound level.now i → i < result }
{
    let count = level.segs().len() as u32;
    bound_where(count, |i| is_seg_found(level, i))
}

fn ssector_bound(level: &Level<'_>) -> u32
    ensures { (i : ℕ) → SsectorFound level.now i → i < result }
{
    let count = level.ssectors().len() as u32;
    bound_where(count, |i| is_ssector_found(level, i))
}

// Whether a code of linedefs holds at one.
#[inline(always)]
fn is_linedef_found(level: &Level<'_>, i: u32) -> bool
    ensures { IsTrue result ↔ LinedefFound level.now i }
{
    linedef_vertex_names_none(level, i)
        || linedef_side_names_none(level, i)
        || two_sided_without_side(level, i)
        || no_side0(level, i)
        || linedef_of_no_length(level, i)
}

// Whether a code of segs holds at one.
#[inline(always)]
fn is_seg_found(level: &Level<'_>, i: u32) -> bool
    ensures { IsTrue result ↔ SegFound level.now i }
{
    seg_vertex_names_none(level, i)
        || seg_linedef_names_none(level, i)
        || seg_side_other(level, i)
        || seg_without_side(level, i)
}

// Whether a code of ssectors holds at one.
#[inline(always)]
fn is_ssector_found(level: &Level<'_>, i: u32) -> bool
    ensures { IsTrue result ↔ SsectorFound level.now i }
{
    ssector_out_of_range(level, i) || ssector_without_segs(level, i)
}
