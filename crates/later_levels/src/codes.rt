//! All findings of a level whose nodes stand in a later format.

ghost use Rattle.std.specs.Prelude.{◌≡◌, ◌↔◌, ◌+◌, ◌<◌, ◌≤◌, ◌^◌, ℕ, IfNone, IfOk, IfSome, IsTrue};
ghost use Rattle.map_level.specs.Findings.{AreFindings, IsFirst};
ghost use Rattle.later_levels.specs.Findings.{LaterHolds, SegHolds, part_of};
ghost use Rattle.later_levels.specs.TableBounds.{AreBounds};

use crate::later_level::LaterLevel;
use crate::left::bytes_left_over;
use crate::seg_faults::{
    seg_linedef_names_none, seg_side_other, seg_vertex_names_none, seg_without_side,
};
use crate::ssector_faults::{no_ssector, ssector_out_of_range, ssector_without_segs};
use crate::table_bounds::{Bounds, bounds_of};
use map_level::search::{Search, Searched, all_findings, first_where};
use map_level::{Code, Findings, Links};
use map_tables::Tables;
use node_lumps::Ssectors;
use node_tree::{LaterTree, Nodes};
use std::alloc::{AllocError, Allocator, Global};
use std::marker::Model;

/// All findings of a level whose nodes stand in a later format, by code and then by index.
pub fn later_findings<A: Allocator + Copy>(
    alloc: A,
    one: &LaterLevel<'_, '_>,
) -> Result<Findings<A>, AllocError>
    ensures { IfOk result (AreFindings (LaterHolds one.now)) }
{
    let parts = Parts::of(alloc, one)?;
    all_findings(alloc, &parts)
}

// The segs, the ssectors and what is left over.
#[derive(Drop)]
pub(crate) struct Segs<'p, 'n, 'a, A: Allocator = Global> {
    one: &'p LaterLevel<'n, 'a>,
    ssectors: Ssectors<'a, A>,
    bounds: Bounds,
}

impl<'p, 'n, 'a, A: Allocator> Model for Segs<'p, 'n, 'a, A> {
    ghost use Rattle.std.specs.Prelude.{◌≡◌};
    ghost use Rattle.later_levels.specs.LaterLevel.{LaterLevel};
    ghost use Rattle.later_levels.specs.TableBounds.{AreBounds};

    ghost Value = { LaterLevel };

    ghost view = { λ segs. segs.one.now };

    ghost invariant = { λ segs. (segs.ssectors ≡ segs.one.now.later.ssectors) × AreBounds segs.one.now segs.bounds };
}

impl<'p, 'n, 'a, A: Allocator> Segs<'p, 'n, 'a, A> {
    // Its ssectors are listed, and its tables gone over once.
    fn of(alloc: A, one: &'p LaterLevel<'n, 'a>) -> Result<Segs<'p, 'n, 'a, A>, AllocError>
        ensures { IfOk result (λ segs. segs ≡ one.now) }
    {
        let ssectors = Ssectors::of(alloc, one.nodes())?;
        let bounds = bounds_of(one, &ssectors);
        Ok(Segs {
            one,
            ssectors,
            bounds,
        })
    }
}

impl<'n, 'a> Searched for LaterLevel<'n, 'a> {
    ghost use Rattle.later_levels.specs.Findings.{SegHolds};

    ghost holds = { SegHolds };
}

impl<'p, 'n, 'a, A: Allocator> Searched for Segs<'p, 'n, 'a, A> {
    ghost use Rattle.later_levels.specs.Findings.{SegHolds};

    ghost holds = { SegHolds };
}

impl<'p, 'n, 'a, A: Allocator> Search for Segs<'p, 'n, 'a, A> {
    fn first(&self, code: Code, from: u32) -> Option<u32> {
        first_at(self.one, &self.ssectors, &self.bounds, code, from)
    }
}

// The first index at which a code holds, from a given one on.
fn first_at<A: Allocator>(
    one: &LaterLevel<'_, '_>,
    ssectors: &Ssectors<'_, A>,
    bounds: &Bounds,
    code: Code,
    from: u32,
) -> Option<u32>
    requires ssectors { ssectors.now ≡ one.now.later.ssectors }
    requires bounds { AreBounds one.now bounds.now }
    ensures some { IfSome result (IsFirst (SegHolds one.now code) from) }
    ensures none { IfNone result ((i : ℕ) → from ≤ i → ¬ SegHolds one.now code i) }
    ensures below { IfSome result (λ at. at + 1 < 2 ^ 32) }
{
    let count = index_bound(one, bounds, code);
    first_where(one, code, from, count, |i| holds_at(one, ssectors, code, i))
}

// A number above all indexes at which a code holds.
fn index_bound(_one: &LaterLevel<'_, '_>, bounds: &Bounds, code: Code) -> u32
    requires { AreBounds _one.now bounds.now }
    ensures { (i : ℕ) → SegHolds _one.now code i → i < result }
{
    match code {
        Code::F6 | Code::F7 | Code::F8 | Code::F9 => bounds.segs,
        Code::F10 | Code::N6 => bounds.ssectors,
        Code::F17 => 1,
        Code::N2 => 9,
        _ => 0,
    }
}

// Whether a code holds at an index.
#[inline(always)]
fn holds_at<A: Allocator>(
    one: &LaterLevel<'_, '_>,
    ssectors: &Ssectors<'_, A>,
    code: Code,
    i: u32,
) -> bool
    requires { ssectors.now ≡ one.now.later.ssectors }
    ensures { IsTrue result ↔ SegHolds one.now code i }
{
    let nodes = one.nodes();
    match code {
        Code::F6 => seg_vertex_names_none(nodes, i),
        Code::F7 => seg_linedef_names_none(one, i),
        Code::F8 => seg_side_other(nodes, i),
        Code::F9 => seg_without_side(one, i),
        Code::F10 => ssector_out_of_range(nodes, ssectors, i),
        Code::F17 => no_ssector(nodes, i),
        Code::N2 => bytes_left_over(one, i),
        Code::N6 => ssector_without_segs(nodes, ssectors, i),
        _ => false,
    }
}

/// A level's parts, each of which looks for codes of its own: for a caller who asks where a code holds next and keeps no list.
#[derive(Drop)]
pub struct Parts<'p, 'n, 'a, A: Allocator = Global> {
    segs: Segs<'p, 'n, 'a, A>,
    links: Links<'n, 'a>,
    nodes: Nodes<'p, LaterTree<'n, 'a>, A>,
    tables: Tables<'n, 'a>,
}

impl<'p, 'n, 'a, A: Allocator> Model for Parts<'p, 'n, 'a, A> {
    ghost use Rattle.std.specs.Prelude.{◌≡◌};
    ghost use Rattle.later_levels.specs.LaterLevel.{LaterLevel};

    ghost Value = { LaterLevel };

    ghost view = { λ parts. parts.segs };

    ghost invariant = { λ parts. (parts.links ≡ parts.segs.level) × (parts.nodes ≡ parts.segs.later)
        × (parts.tables ≡ parts.segs.level) };
}

impl<'p, 'n, 'a, A: Allocator + Copy> Parts<'p, 'n, 'a, A> {
    /// The parts of a level. Its tables are gone over once. It takes two bytes for each node and ssector, and four for each ssector
    /// of a format that has the numbers of their segs alone.
    pub fn of(alloc: A, one: &'p LaterLevel<'n, 'a>) -> Result<Parts<'p, 'n, 'a, A>, AllocError>
        ensures { IfOk result (λ parts. parts ≡ one.now) }
    {
        let segs = Segs::of(alloc, one)?;
        let nodes = Nodes::of(alloc, one.tree())?;
        let level = one.level();
        Ok(Parts {
            segs,
            links: Links::of(level),
            nodes,
            tables: Tables::of(level),
        })
    }
}

impl<'p, 'n, 'a, A: Allocator> Searched for Parts<'p, 'n, 'a, A> {
    ghost use Rattle.later_levels.specs.Findings.{LaterHolds};

    ghost holds = { LaterHolds };
}

impl<'p, 'n, 'a, A: Allocator> Search for Parts<'p, 'n, 'a, A> {
    fn first(&self, code: Code, from: u32) -> Option<u32> {
        match part_of(code) {
            LaterPart::Level => self.links.first(code, from),
            LaterPart::Segs => self.segs.first(code, from),
            LaterPart::Tree => self.nodes.first(code, from),
            LaterPart::Tables => self.tables.first(code, from),
            LaterPart::Nothing => None,
        }
    }
}

/// What looks for a code.
#[derive(Clone, Copy)]
pub(crate) enum LaterPart {
    /// What the level has besides its nodes.
    Level,
    /// Its segs and ssectors, and what is left over.
    Segs,
    /// The tree of its nodes.
    Tree,
    /// Its REJECT and BLOCKMAP.
    Tables,
    /// Nothing: such a code holds of no level.
    Nothing,
}

// The part that looks for a code.
fn part_of(code: Code) -> LaterPart
    ensures { result ≡ part_of code }
{
    match code {
        Code::F3 | Code::F4 | Code::F5 | Code::N3 | Code::N4 | Code::N5 | Code::N11 | Code::N12 => {
            LaterPart::Level
        }
        Code::F6 | Code::F7 | Code::F8 | Code::F9 | Code::F10 | Code::F17 | Code::N2 | Code::N6 => {
            LaterPart::Segs
        }
        Code::F11 | Code::F12 | Code::F13 | Code::F14 | Code::F15 | Code::F16 | Code::N7 => {
            LaterPart::Tree
        }
        Code::N8 | Code::N9 | Code::N10 => LaterPart::Tables,
        _ => LaterPart::Nothing,
    }
}
