//! The link part of a report.

ghost use Rattle.std.specs.Prelude.{◌≡◌, ◌+◌, ◌<◌, ◌≤◌, ◌^◌, ◌↔◌, ℕ, IfNone, IfOk, IfSome, IsTrue};
ghost use Rattle.map_level.specs.Findings.{AreFindings, IsFirst};
ghost use Rattle.map_level.specs.LinkFaults.{LinkHolds};
ghost use Rattle.map_level.specs.LinkBounds.{AreBounds};

use crate::finding::{Code, Findings};
use crate::level::Level;
use crate::link_bounds::{Bounds, bounds_of};
use crate::link_faults::{
    bytes_left_over, linedef_of_no_length, linedef_side_names_none, linedef_vertex_names_none,
    lump_name_differs, no_side0, no_ssector, no_start, seg_linedef_names_none, seg_side_other,
    seg_vertex_names_none, seg_without_side, sidedef_sector_names_none, ssector_out_of_range,
    ssector_without_segs, too_many_nodes, two_sided_without_side, vertex_outside,
};
use crate::search::{Search, Searched, all_findings, first_where};
use std::alloc::{AllocError, Allocator};
use std::marker::Model;

/// The findings on the links of a level's records, under its reading: F3 to F10, F17, F18, N1 to
/// N6, N11 and N12, by code and then by index.
pub fn link_findings<A: Allocator>(alloc: A, level: &Level<'_>) -> Result<Findings<A>, AllocError>
    ensures { IfOk result (AreFindings (LinkHolds level.now)) }
{
    all_findings(alloc, &Links::of(level))
}

/// A level whose links are looked at. One pass over each table has shown which tables have a finding at
/// all.
#[derive(Drop)]
pub struct Links<'l, 'a> {
    level: &'l Level<'a>,
    bounds: Bounds,
}

impl<'l, 'a> Model for Links<'l, 'a> {
    ghost use Rattle.map_level.specs.Level.{Level};
    ghost use Rattle.map_level.specs.LinkBounds.{AreBounds};

    ghost Value = { Level };

    ghost view = { λ links. links.level.now };

    ghost invariant = { λ links. AreBounds links.level.now links.bounds };
}

impl<'l, 'a> Links<'l, 'a> {
    /// The links of a level.
    pub fn of(level: &'l Level<'a>) -> Links<'l, 'a>
        ensures { result ≡ level.now }
    {
        Links {
            level,
            bounds: bounds_of(level),
        }
    }
}

impl<'a> Searched for Level<'a> {
    ghost use Rattle.map_level.specs.LinkFaults.{LinkHolds};

    ghost holds = { LinkHolds };
}

impl<'l, 'a> Searched for Links<'l, 'a> {
    ghost use Rattle.map_level.specs.LinkFaults.{LinkHolds};

    ghost holds = { LinkHolds };
}

impl<'l, 'a> Search for Links<'l, 'a> {
    fn first(&self, code: Code, from: u32) -> Option<u32> {
        first_at(self.level, &self.bounds, code, from)
    }
}

// The first index at which a code holds, from a given one on.
fn first_at(level: &Level<'_>, bounds: &Bounds, code: Code, from: u32) -> Option<u32>
    requires { AreBounds level.now bounds.now }
    ensures some { IfSome result (IsFirst (LinkHolds level.now code) from) }
    ensures none { IfNone result ((i : ℕ) → from ≤ i → ¬ LinkHolds level.now code i) }
    ensures below { IfSome result (λ at. at + 1 < 2 ^ 32) }
{
    let count = index_bound(level, bounds, code);
    match code {
        // No earlier pass looked at these two tables, so each level's are searched here, with a test of
        // their own.
        Code::F5 => first_where(level, code, from, count, |i| {
            sidedef_sector_names_none(level, i)
        }),
        Code::N12 => first_where(level, code, from, count, |i| vertex_outside(level, i)),
        _ => first_where(level, code, from, count, |i| holds_at(level, code, i)),
    }
}

// A number above all indexes at which a code holds.
fn index_bound(level: &Level<'_>, bounds: &Bounds, code: Code) -> u32
    requires { AreBounds level.now bounds.now }
    ensures { (i : ℕ) → LinkHolds level.now code i → i < result }
{
    match code {
        Code::F3 | Code::F4 | Code::N3 | Code::N4 | Code::N5 => bounds.linedefs,
        Code::F5 => level.sidedefs().len() as u32,
        Code::F6 | Code::F7 | Code::F8 | Code::F9 => bounds.segs,
        Code::F10 | Code::N6 => bounds.ssectors,
        Code::F17 | Code::F18 | Code::N11 => 1,
        Code::N1 => 11,
        Code::N2 => 9,
        Code::N12 => level.vertexes().len() as u32,
        _ => 0,
    }
}

// Whether a code holds at an index.
#[inline(always)]
fn holds_at(level: &Level<'_>, code: Code, i: u32) -> bool
    ensures { IsTrue result ↔ LinkHolds level.now code i }
{
    match code {
        Code::F3 => linedef_vertex_names_none(level, i),
        Code::F4 => linedef_side_names_none(level, i),
        Code::F5 => sidedef_sector_names_none(level, i),
        Code::F6 => seg_vertex_names_none(level, i),
        Code::F7 => seg_linedef_names_none(level, i),
        Code::F8 => seg_side_other(level, i),
        Code::F9 => seg_without_side(level, i),
        Code::F10 => ssector_out_of_range(level, i),
        Code::F17 => no_ssector(level, i),
        Code::F18 => too_many_nodes(level, i),
        Code::N1 => lump_name_differs(level, i),
        Code::N2 => bytes_left_over(level, i),
        Code::N3 => two_sided_without_side(level, i),
        Code::N4 => no_side0(level, i),
        Code::N5 => linedef_of_no_length(level, i),
        Code::N6 => ssector_without_segs(level, i),
        Code::N11 => no_start(level, i),
        Code::N12 => vertex_outside(level, i),
        _ => false,
    }
}
