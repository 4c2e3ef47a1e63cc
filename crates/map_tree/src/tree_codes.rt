//! The tree part of a report.

ghost use Rattle.std.specs.Prelude.{◌≡◌, ◌↔◌, ◌+◌, ◌<◌, ◌≤◌, ◌^◌, ℕ, IfNone, IfOk, IfSome, IsTrue};
ghost use Rattle.map_level.specs.Findings.{AreFindings, IsFirst};
ghost use Rattle.map_tree.specs.TreeFaults.{TreeHolds};
ghost use Rattle.map_tree.specs.WordCounts.{AreWordCounts};
ghost use Rattle.map_tree.specs.Marks.{AreReached};
ghost use Rattle.map_tree.specs.TreeBounds.{AreBounds};

use crate::marks::reached_places;
use crate::places::Places;
use crate::tree_bounds::{Bounds, bounds_of};
use crate::tree_faults::{
    child_names_nothing, no_direction, node_named_twice, node_not_reached, origin_outside,
    ssector_named_twice, ssector_not_reached,
};
use crate::words::word_counts;
use map_level::search::{Search, Searched, all_findings, first_where};
use map_level::{Code, Findings, Level};
use std::alloc::{AllocError, Allocator, Global};
use std::marker::Model;

/// The findings on a level's nodes, F11 to F16 and N7, by code and then by index.
///
/// It takes two bytes for each node and ssector, four for each place that waits to be visited, and
/// what the findings take.
pub fn tree_findings<A: Allocator + Copy>(
    alloc: A,
    level: &Level<'_>,
) -> Result<Findings<A>, AllocError>
    ensures { IfOk result (AreFindings (TreeHolds level.now)) }
{
    let nodes = Nodes::of(alloc, level)?;
    all_findings(alloc, &nodes)
}

/// A level whose nodes are looked at: how many child words name each node and ssector, which are reached,
/// and whether there is a finding at all.
#[derive(Drop)]
pub struct Nodes<'l, 'a, A: Allocator = Global> {
    places: Places<'l, 'a>,
    counts: Vec<u8, A>,
    reached: Vec<bool, A>,
    bounds: Bounds,
}

impl<'l, 'a, A: Allocator> Model for Nodes<'l, 'a, A> {
    ghost use Rattle.map_level.specs.Level.{Level};
    ghost use Rattle.map_tree.specs.Marks.{AreReached};
    ghost use Rattle.map_tree.specs.TreeBounds.{AreBounds};
    ghost use Rattle.map_tree.specs.WordCounts.{AreWordCounts};

    ghost Value = { Level };

    ghost view = { λ nodes. nodes.places };

    ghost invariant = { λ nodes. AreWordCounts nodes.places nodes.counts.items
        × AreReached nodes.places nodes.reached.items
        × AreBounds nodes.places nodes.bounds };
}

impl<'l, 'a, A: Allocator + Copy> Nodes<'l, 'a, A> {
    /// The nodes of a level. It takes two bytes for each node and ssector, and during the visits four for each place
    /// that waits.
    pub fn of(alloc: A, level: &'l Level<'a>) -> Result<Nodes<'l, 'a, A>, AllocError>
        ensures { IfOk result (λ nodes. nodes ≡ level.now) }
    {
        let places = Places::of(level);
        let counts = word_counts(alloc, &places)?;
        let reached = reached_places(alloc, &places)?;
        let bounds = bounds_of(&places, &counts, &reached);
        Ok(Nodes {
            places,
            counts,
            reached,
            bounds,
        })
    }
}

impl<'l, 'a, A: Allocator> Searched for Nodes<'l, 'a, A> {
    ghost use Rattle.map_tree.specs.TreeFaults.{TreeHolds};

    ghost holds = { TreeHolds };
}

impl<'l, 'a, A: Allocator> Search for Nodes<'l, 'a, A> {
    fn first(&self, code: Code, from: u32) -> Option<u32> {
        first_at(
            &self.places,
            &self.counts,
            &self.reached,
            &self.bounds,
            code,
            from,
        )
    }
}

// The first index from one on at which a code holds.
fn first_at(
    places: &Places<'_, '_>,
    counts: &[u8],
    reached: &[bool],
    bounds: &Bounds,
    code: Code,
    from: u32,
) -> Option<u32>
    requires counts { AreWordCounts places.now counts.now }
    requires reached { AreReached places.now reached.now }
    requires bounds { AreBounds places.now bounds.now }
    ensures some { IfSome result (IsFirst (TreeHolds places.now code) from) }
    ensures none { IfNone result ((i : ℕ) → from ≤ i → ¬ TreeHolds places.now code i) }
    ensures below { IfSome result (λ at. at + 1 < 2 ^ 32) }
{
    let bound = index_bound(places, bounds, code);
    first_where(places, code, from, bound, |i| {
        holds_at(places, counts, reached, code, i)
    })
}

// A number above all indexes at which a code holds.
fn index_bound(_places: &Places<'_, '_>, bounds: &Bounds, code: Code) -> u32
    requires { AreBounds _places.now bounds.now }
    ensures { (i : ℕ) → TreeHolds _places.now code i → i < result }
{
    match code {
        Code::F11 | Code::F12 | Code::F13 | Code::F14 | Code::N7 => bounds.nodes,
        Code::F15 | Code::F16 => bounds.ssectors,
        _ => 0,
    }
}

// Whether a code holds at an index.
#[inline(always)]
fn holds_at(places: &Places<'_, '_>, counts: &[u8], reached: &[bool], code: Code, i: u32) -> bool
    requires counts { AreWordCounts places.now counts.now }
    requires reached { AreReached places.now reached.now }
    ensures { IsTrue result ↔ TreeHolds places.now code i }
{
    match code {
        Code::F11 => child_names_nothing(places, i),
        Code::F12 => origin_outside(places, i),
        Code::F13 => node_named_twice(places, counts, i),
        Code::F14 => node_not_reached(places, reached, i),
        Code::F15 => ssector_named_twice(places, counts, i),
        Code::F16 => ssector_not_reached(places, reached, i),
        Code::N7 => no_direction(places, i),
        _ => false,
    }
}
