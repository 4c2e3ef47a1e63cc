//! One pass over nodes and one over ssectors with the tests of all their codes: most trees have no finding there, and the
//! codes then need no pass of their own.

ghost use Rattle.std.specs.Prelude.{◌<◌, ◌↔◌, ℕ, IsTrue};
ghost use Rattle.node_tree.specs.WordCounts.{AreWordCounts};
ghost use Rattle.node_tree.specs.Marks.{AreReached};
ghost use Rattle.node_tree.specs.TreeBounds.{AreBounds, NodeFound, NodePlaceFound, NodeRecordFound, SsectorFound};

use crate::faults::{
    child_names_nothing, no_direction, node_named_twice, node_not_reached, origin_outside,
    ssector_named_twice, ssector_not_reached,
};
use crate::forked::Forked;
use crate::places::Places;
use map_level::search::bound_where;

/// Numbers above all nodes and all ssectors at which one of their codes holds: 0 if there are none.
#[derive(Clone, Copy)]
pub struct Bounds {
    pub nodes: u32,
    pub ssectors: u32,
}

/// The bounds of a tree's nodes and ssectors.
pub fn bounds_of<T: Forked>(places: &Places<'_, T>, counts: &[u8], reached: &[bool]) -> Bounds
    requires counts { AreWordCounts (T.shape places.now) counts.now }
    requires reached { AreReached (T.shape places.now) reached.now }
    ensures { AreBounds (T.shape places.now) result }
{
    Bounds {
        nodes: node_bound(places, counts, reached),
        ssectors: ssector_bound(places, counts, reached),
    }
}

fn node_bound<T: Forked>(places: &Places<'_, T>, counts: &[u8], reached: &[bool]) -> u32
    requires counts { AreWordCounts (T.shape places.now) counts.now }
    requires reached { AreReached (T.shape places.now) reached.now }
    ensures { (n : ℕ) → NodeFound (T.shape places.now) n → n < result }
{
    let count = places.nodes() as u32;
    bound_where(count, |n| is_node_found(places, counts, reached, n))
}

fn ssector_bound<T: Forked>(places: &Places<'_, T>, counts: &[u8], reached: &[bool]) -> u32
    requires counts { AreWordCounts (T.shape places.now) counts.now }
    requires reached { AreReached (T.shape places.now) reached.now }
    ensures { (t : ℕ) → SsectorFound (T.shape places.now) t → t < result }
{
    let count = places.ssectors() as u32;
    bound_where(count, |t| is_ssector_found(places, counts, reached, t))
}

// Whether a code of nodes holds at one.
#[inline(always)]
fn is_node_found<T: Forked>(places: &Places<'_, T>, counts: &[u8], reached: &[bool], n: u32) -> bool
    requires counts { AreWordCounts (T.shape places.now) counts.now }
    requires reached { AreReached (T.shape places.now) reached.now }
    ensures { IsTrue result ↔ NodeFound (T.shape places.now) n }
{
    is_node_record_found(places, n) || is_node_place_found(places, counts, reached, n)
}

#[inline(always)]
fn is_node_record_found<T: Forked>(places: &Places<'_, T>, n: u32) -> bool
    ensures { IsTrue result ↔ NodeRecordFound (T.shape places.now) n }
{
    child_names_nothing(places, n) || origin_outside(places, n) || no_direction(places, n)
}

#[inline(always)]
fn is_node_place_found<T: Forked>(
    places: &Places<'_, T>,
    counts: &[u8],
    reached: &[bool],
    n: u32,
) -> bool
    requires counts { AreWordCounts (T.shape places.now) counts.now }
    requires reached { AreReached (T.shape places.now) reached.now }
    ensures { IsTrue result ↔ NodePlaceFound (T.shape places.now) n }
{
    node_named_twice(places, counts, n) || node_not_reached(places, reached, n)
}

// Whether a code of ssectors holds at one.
#[inline(always)]
fn is_ssector_found<T: Forked>(
    places: &Places<'_, T>,
    counts: &[u8],
    reached: &[bool],
    t: u32,
) -> bool
    requires counts { AreWordCounts (T.shape places.now) counts.now }
    requires reached { AreReached (T.shape places.now) reached.now }
    ensures { IsTrue result ↔ SsectorFound (T.shape places.now) t }
{
    ssector_named_twice(places, counts, t) || ssector_not_reached(places, reached, t)
}
