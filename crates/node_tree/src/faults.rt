//! Tests of each fault and note on the nodes of a tree.

ghost use Rattle.std.specs.Prelude.{◌≡◌, ◌<◌, ◌↔◌, IsTrue};
ghost use Rattle.map_tree.specs.Paths.{node, ssector};
ghost use Rattle.node_tree.specs.Shape.{node_count, ssector_count, root, IsReached};
ghost use Rattle.node_tree.specs.TreeFaults.{ChildNamesNothing, OriginOutside, NodeNamedTwice};
ghost use Rattle.node_tree.specs.TreeFaults.{NodeNotReached, SsectorNamedTwice, SsectorNotReached};
ghost use Rattle.node_tree.specs.TreeFaults.{NoDirection, IsNamed, IsNamedTwice};
ghost use Rattle.node_tree.specs.WordCounts.{AreWordCounts};
ghost use Rattle.node_tree.specs.Marks.{AreReached};

use crate::forked::Forked;
use crate::places::{Places, record_of};
use map_geo::Partition;

/// F11 at that index: child 0 or child 1 of a node names no node and no ssector.
#[inline]
pub fn child_names_nothing<T: Forked>(places: &Places<'_, T>, n: u32) -> bool
    ensures { IsTrue result ↔ ChildNamesNothing (T.shape places.now) n }
{
    let n = n as usize;
    if n >= places.nodes() {
        return false;
    }
    let children = places.children(n);
    children.front.is_none() || children.back.is_none()
}

/// F12 at that index: a node's origin is out of range.
#[inline]
pub fn origin_outside<T: Forked>(places: &Places<'_, T>, n: u32) -> bool
    ensures { IsTrue result ↔ OriginOutside (T.shape places.now) n }
{
    match places.line(n as usize) {
        Some(line) => Partition::of(&record_of(line)).is_none(),
        None => false,
    }
}

/// F13 at that index: a node is named by two child words, or is the root and is named by one.
#[inline]
#[tactic(auto, using(crate::proofs::WordLemmas::named_from_twice))]
pub fn node_named_twice<T: Forked>(places: &Places<'_, T>, counts: &[u8], n: u32) -> bool
    requires { AreWordCounts (T.shape places.now) counts.now }
    ensures { IsTrue result ↔ NodeNamedTwice (T.shape places.now) n }
{
    let n = n as usize;
    if n >= places.nodes() {
        return false;
    }
    if is_root(places, n) {
        return is_node_named(places, counts, n);
    }
    is_node_twice(places, counts, n)
}

// Whether node n, which is there, is the root.
#[inline]
fn is_root<T: Forked>(places: &Places<'_, T>, n: usize) -> bool
    requires { n < node_count (T.shape places.now) }
    ensures { IsTrue result ↔ (root (T.shape places.now) ≡ node n) }
{
    let nodes = places.nodes();
    n + 1 == nodes
}

// Whether a child word names node n, which is there.
#[inline]
fn is_node_named<T: Forked>(places: &Places<'_, T>, counts: &[u8], n: usize) -> bool
    requires counts { AreWordCounts (T.shape places.now) counts.now }
    requires there { n < node_count (T.shape places.now) }
    ensures { IsTrue result ↔ IsNamed (T.shape places.now) (node n) }
{
    // Only the clauses speak of the places.
    let _places = places;
    counts[n] > 0
}

// Whether two child words name node n, which is there.
#[inline]
fn is_node_twice<T: Forked>(places: &Places<'_, T>, counts: &[u8], n: usize) -> bool
    requires counts { AreWordCounts (T.shape places.now) counts.now }
    requires there { n < node_count (T.shape places.now) }
    ensures { IsTrue result ↔ IsNamedTwice (T.shape places.now) (node n) }
{
    // Only the clauses speak of the places.
    let _places = places;
    counts[n] > 1
}

/// F14 at that index: a node is not reached from the root.
#[inline]
pub fn node_not_reached<T: Forked>(places: &Places<'_, T>, reached: &[bool], n: u32) -> bool
    requires { AreReached (T.shape places.now) reached.now }
    ensures { IsTrue result ↔ NodeNotReached (T.shape places.now) n }
{
    let n = n as usize;
    n < places.nodes() && !is_node_reached(places, reached, n)
}

// Whether node n, which is there, is reached.
#[inline]
fn is_node_reached<T: Forked>(places: &Places<'_, T>, reached: &[bool], n: usize) -> bool
    requires reached { AreReached (T.shape places.now) reached.now }
    requires there { n < node_count (T.shape places.now) }
    ensures { IsTrue result ↔ IsReached (T.shape places.now) (node n) }
{
    // Only the clauses speak of the places.
    let _places = places;
    reached[n]
}

/// F15 at that index: an ssector is named by two child words.
#[inline]
pub fn ssector_named_twice<T: Forked>(places: &Places<'_, T>, counts: &[u8], t: u32) -> bool
    requires { AreWordCounts (T.shape places.now) counts.now }
    ensures { IsTrue result ↔ SsectorNamedTwice (T.shape places.now) t }
{
    let t = t as usize;
    if t >= places.ssectors() {
        return false;
    }
    is_ssector_twice(places, counts, t)
}

// Whether two child words name ssector t, which is there.
#[inline]
fn is_ssector_twice<T: Forked>(places: &Places<'_, T>, counts: &[u8], t: usize) -> bool
    requires counts { AreWordCounts (T.shape places.now) counts.now }
    requires there { t < ssector_count (T.shape places.now) }
    ensures { IsTrue result ↔ IsNamedTwice (T.shape places.now) (ssector t) }
{
    counts[places.nodes() + t] > 1
}

/// F16 at that index: an ssector is not reached from the root, which
/// is ssector 0 where there are no nodes.
#[inline]
pub fn ssector_not_reached<T: Forked>(places: &Places<'_, T>, reached: &[bool], t: u32) -> bool
    requires { AreReached (T.shape places.now) reached.now }
    ensures { IsTrue result ↔ SsectorNotReached (T.shape places.now) t }
{
    let t = t as usize;
    t < places.ssectors() && !is_ssector_reached(places, reached, t)
}

// Whether ssector t, which is there, is reached.
#[inline]
fn is_ssector_reached<T: Forked>(places: &Places<'_, T>, reached: &[bool], t: usize) -> bool
    requires reached { AreReached (T.shape places.now) reached.now }
    requires there { t < ssector_count (T.shape places.now) }
    ensures { IsTrue result ↔ IsReached (T.shape places.now) (ssector t) }
{
    reached[places.nodes() + t]
}

/// N7 at that index: the partition of a node has no direction.
#[inline]
pub fn no_direction<T: Forked>(places: &Places<'_, T>, n: u32) -> bool
    ensures { IsTrue result ↔ NoDirection (T.shape places.now) n }
{
    match places.line(n as usize) {
        Some(line) => line.dx == 0 && line.dy == 0,
        None => false,
    }
}
