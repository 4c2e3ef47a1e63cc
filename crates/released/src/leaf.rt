//! The ssector of a point as linuxdoom 1.10 finds it, with its arithmetic on numbers of 32 bits.

ghost use Rattle.std.specs.Prelude.{◌≡◌, ◌<◌, ◌≤◌, ◌-◌, ℕ, IsSomeAnd, length};
ghost use Rattle.std.specs.List.{slice_get};
ghost use Rattle.map_geo.specs.Point.{IsInRange};
ghost use Rattle.map_geo.specs.Partition.{partition_of};
ghost use Rattle.map_geo.specs.Side.{side_of};
ghost use Rattle.map_tree.specs.Child.{place_of, word_at};
ghost use Rattle.map_tree.specs.Paths.{ssector};
ghost use Rattle.map_tree.specs.Sound.{IsSound};
ghost use Rattle.map_tree.specs.Leaf.{IsLeaf};
ghost use Rattle.released.specs.PointOnSide.{fixed, fixed_node, released_side};
ghost use Rattle.released.specs.PointInSubsector.{FindsSsector};

use crate::side::released_side_at;
use le_rec::{Node, Table};
use map_geo::{Point, Side};
use map_level::Level;
use map_tree::{NF_SUBSECTOR, root_word};

/// R_PointInSubsector of r_main.c, with R_PointOnSide as the game computes it: the number of the ssector in which the
/// game takes the point to be. It is the leaf as defined, which `Tree::leaf` gives.
pub fn released_leaf(level: &Level<'_>, point: Point) -> u16
    requires { IsSound level.now }
    ensures finds { FindsSsector level.now.nodes.records point result }
    ensures leaf { IsLeaf level.now point result }
    ensures only { (t : ℕ) → IsLeaf level.now point t → t ≡ result }
{
    let nodes = level.nodes();
    let mut word = root_word(nodes.len());
    // This is only there to show that the loop ends.
    let mut tests: u32 = 0;
    while word < NF_SUBSECTOR {
        word = released_next(&nodes, word, point);
        tests += 1;
    }
    ssector_of(word)
}

// The child word of node n at the side that the game gives for the point.
fn released_next(nodes: &Table<'_, Node>, n: u16, point: Point) -> u16
    requires there { n < length nodes.now.records }
    requires origin { IsSomeAnd (slice_get nodes.now.records n)
        (λ found. IsInRange found.x × IsInRange found.y) }
    ensures released { IsSomeAnd (slice_get nodes.now.records n)
        (λ found. result ≡ word_at found (released_side (fixed point.x) (fixed point.y) (fixed_node found))) }
    ensures defined { IsSomeAnd (slice_get nodes.now.records n)
        (λ found. result ≡ word_at found (side_of (partition_of found) point)) }
{
    released_word(&nodes.at(usize::from(n)), point)
}

fn released_word(node: &Node, point: Point) -> u16
    requires x_in { IsInRange node.now.x }
    requires y_in { IsInRange node.now.y }
    ensures released { result
        ≡ word_at node.now (released_side (fixed point.x) (fixed point.y) (fixed_node node.now)) }
    ensures defined { result ≡ word_at node.now (side_of (partition_of node.now) point) }
{
    match released_side_at(point, node) {
        Side::Front => node.child0,
        Side::Back => node.child1,
    }
}

// The ssector that a word names.
fn ssector_of(word: u16) -> u16
    requires { 32768 ≤ word }
    ensures place { place_of word ≡ ssector result }
    ensures number { result ≡ word - 32768 }
{
    word - NF_SUBSECTOR
}
