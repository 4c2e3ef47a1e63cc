//! The tree part of a report.

ghost use Rattle.std.specs.Prelude.{◌≡◌, ◌↔◌, ◌+◌, ◌<◌, ◌≤◌, ◌^◌, ℕ, IfNone, IfOk, IfSome, IsTrue};
ghost use Rattle.map_level.specs.Findings.{AreFindings, IsFirst};
ghost use Rattle.node_tree.specs.TreeFaults.{TreeHolds};
ghost use Rattle.node_tree.specs.WordCounts.{AreWordCounts};
ghost use Rattle.node_tree.specs.Marks.{AreReached};
ghost use Rattle.node_tree.specs.TreeBounds.{AreBounds};

use crate::bounds::{Bounds, bounds_of};
use crate::faults::{
    child_names_nothing, no_direction, node_named_twice, node_not_reached, origin_outside,
    ssector_named_twice, ssector_not_reached,
};
use crate::forked::Forked;
use crate::marks::reached_places;
use crate::places::Places;
use crate::words::word_counts;
use map_level::search::{Search, Searched, all_findings, first_where};
use map_level::{Code, Findings};
use std::alloc::{AllocError, Allocator, Global};
use std::marker::Model;

/// The findings on the nodes of a tree, F11 to F16 and N7, by code and then by index.
///
/// It takes two bytes for each node and ssector, four for each place that waits to be visited, and
/// what the findings take.
pub fn tree_findings<T: Forked, A: Allocator + Copy>(
    alloc: A,
    tree: &T,
) -> Result<Findings<A>, AllocError>
    ensures { IfOk result (AreFindings (TreeHolds (T.shape tree.now))) }
{
    let nodes = Nodes::of(alloc, tree)?;
    all_findings(alloc, &nodes)
}

/// A tree whose nodes are looked at: how many child words name each node and ssector, which are reached,
/// and whether there is a finding at all.
#[derive(Drop)]
pub struct Nodes<'t, T: Forked, A: Allocator = Global> {
    places: Places<'t, T>,
    counts: Vec<u8, A>,
    reached: Vec<bool, A>,
    bounds: Bounds,
}

impl<'t, T: Forked, A: Allocator> Model for Nodes<'t, T, A> {
    ghost use Rattle.node_tree.specs.Marks.{AreReached};
    ghost use Rattle.node_tree.specs.TreeBounds.{AreBounds};
    ghost use Rattle.node_tree.specs.WordCounts.{AreWordCounts};

    ghost Value = { T };

    ghost view = { λ nodes. nodes.places };

    ghost invariant = { λ nodes. AreWordCounts (T.shape nodes.places) nodes.counts.items
        × AreReached (T.shape nodes.places) nodes.reached.items
        × AreBounds (T.shape nodes.places) nodes.bounds };
}

impl<'t, T: Forked, A: Allocator + Copy> Nodes<'t, T, A> {
    /// The nodes of a tree. It takes two bytes for each node and ssector, and during the visits four for each place
    /// that waits.
    pub fn of(alloc: A, tree: &'t T) -> Result<Nodes<'t, T, A>, AllocError>
        ensures { IfOk result (λ nodes. nodes ≡ tree.now) }
    {
        let places = Places::of(tree);
        let counts = word_counts(alloc, &places)?;
        let reached = reached_places(alloc, &places)?;
        let bounds = bounds_of(&places, &counts, &reached);
        Ok(Nodes {
            places,
            counts,
            reached,
            bounds,
        })
    }
}

impl<'t, T: Forked, A: Allocator> Searched for Nodes<'t, T, A> {
    ghost use Rattle.node_tree.specs.TreeFaults.{TreeHolds};

    ghost holds = { λ tree. TreeHolds (T.shape tree) };
}

impl<'t, T: Forked, A: Allocator> Search for Nodes<'t, T, A> {
    fn first(&self, code: Code, from: u32) -> Option<u32> {
        first_at(
            &self.places,
            &self.counts,
            &self.reached,
            &self.bounds,
            code,
            from,
        )
    }
}

// The first index from one on at which a code holds.
fn first_at<T: Forked>(
    places: &Places<'_, T>,
    counts: &[u8],
    reached: &[bool],
    bounds: &Bounds,
    code: Code,
    from: u32,
) -> Option<u32>
    requires counts { AreWordCounts (T.shape places.now) counts.now }
    requires reached { AreReached (T.shape places.now) reached.now }
    requires bounds { AreBounds (T.shape places.now) bounds.now }
    ensures some { IfSome result (IsFirst (TreeHolds (T.shape places.now) code) from) }
    ensures none { IfNone result ((i : ℕ) → from ≤ i → ¬ TreeHolds (T.shape places.now) code i) }
    ensures below { IfSome result (λ at. at + 1 < 2 ^ 32) }
{
    let bound = index_bound(places, bounds, code);
    first_where(places, code, from, bound, |i| {
        holds_at(places, counts, reached, code, i)
    })
}

// A number above all indexes at which a code holds.
fn index_bound<T: Forked>(_places: &Places<'_, T>, bounds: &Bounds, code: Code) -> u32
    requires { AreBounds (T.shape _places.now) bounds.now }
    ensures { (i : ℕ) → TreeHolds (T.shape _places.now) code i → i < result }
{
    match code {
        Code::F11 | Code::F12 | Code::F13 | Code::F14 | Code::N7 => bounds.nodes,
        Code::F15 | Code::F16 => bounds.ssectors,
        _ => 0,
    }
}

// Whether a code holds at an index.
#[inline(always)]
fn holds_at<T: Forked>(
    places: &Places<'_, T>,
    counts: &[u8],
    reached: &[bool],
    code: Code,
    i: u32,
) -> bool
    requires counts { AreWordCounts (T.shape places.now) counts.now }
    requires reached { AreReached (T.shape places.now) reached.now }
    ensures { IsTrue result ↔ TreeHolds (T.shape places.now) code i }
{
    match code {
        Code::F11 => child_names_nothing(places, i),
        Code::F12 => origin_outside(places, i),
        Code::F13 => node_named_twice(places, counts, i),
        Code::F14 => node_not_reached(places, reached, i),
        Code::F15 => ssector_named_twice(places, counts, i),
        Code::F16 => ssector_not_reached(places, reached, i),
        Code::N7 => no_direction(places, i),
        _ => false,
    }
}
