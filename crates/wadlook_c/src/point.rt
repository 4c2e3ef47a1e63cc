//! The sector of one point of a prepared level.

ghost use Rattle.std.specs.Prelude.{◌≡◌, ◌≤◌, IsSomeAnd};
ghost use Rattle.std.specs.List.{slice_get};
ghost use Rattle.map_geo.specs.Partition.{partition_of};
ghost use Rattle.map_geo.specs.Point.{IsInRange};
ghost use Rattle.map_geo.specs.Side.{side_of};
ghost use Rattle.map_level.specs.Level.{Level};
ghost use Rattle.map_tree.specs.Child.{word_at, place_of, root_of};
ghost use Rattle.map_tree.specs.Leaf.{IsLeaf};
ghost use Rattle.map_tree.specs.Sound.{IsSound};
ghost use Rattle.wadlook_c.specs.Places.{IsListed, TellsLeaf, TellsPlace};
ghost use Rattle.wadlook_c.specs.Prepared.{IsPrepared};

use crate::points::{NOWHERE, WadlookPlace, WadlookPoint};
use le_rec::{Node, Table};
use map_geo::{Partition, Point, Side, side};
use map_tree::NF_SUBSECTOR;

/// The ssector and the sector of a point, by the bytes of a level's nodes and by the sectors of its ssectors, as
/// `wadlook_prepare` lists them. Any bytes and any numbers may be handed in. If they aren't a sound level's, the answer
/// is some ssector with its listed sector, or `NOWHERE`.
#[unsafe(no_mangle)]
pub extern "C" fn wadlook_point(nodes: &[u8], sectors: &[u16], point: WadlookPoint) -> WadlookPlace
    ensures prepared { (level : Level) → IsPrepared level nodes.now sectors.now → TellsPlace level point result }
    ensures listed { IsListed sectors.now result }
{
    match Point::new(point.x, point.y) {
        Some(at) => place_in(nodes, sectors, at),
        None => NOWHERE,
    }
}

// The place of a point in range.
fn place_in(nodes: &[u8], sectors: &[u16], point: Point) -> WadlookPlace
    ensures prepared { (level : Level) → IsPrepared level nodes.now sectors.now → TellsLeaf level point result }
    ensures listed { IsListed sectors.now result }
{
    let Some(ssector) = leaf_in(&Table::of(nodes), point) else {
        return NOWHERE;
    };
    let t = usize::from(ssector);
    if t >= sectors.len() {
        return NOWHERE;
    }
    WadlookPlace {
        ssector,
        sector: sectors[t],
    }
}

/// The leaf of a point by nodes that may be no tree: at most as many tests as there are nodes.
pub fn leaf_in(nodes: &Table<'_, Node>, point: Point) -> Option<u16>
    ensures { (level : Level) → IsSound level → level.nodes ≡ nodes.now → IsSomeAnd result (IsLeaf level point) }
{
    let mut word = first_word(nodes.len())?;
    let mut tests = 0;
    while word < NF_SUBSECTOR {
        if tests >= nodes.len() {
            return None;
        }
        word = next_word(nodes, word, point)?;
        tests += 1;
    }
    Some(word - NF_SUBSECTOR)
}

// The word that names the root of so many nodes.
fn first_word(nodes: usize) -> Option<u16>
    ensures { nodes ≤ 32767 → IsSomeAnd result (λ word. place_of word ≡ root_of nodes) }
{
    if nodes > 32767 {
        return None;
    }
    if nodes == 0 {
        return Some(NF_SUBSECTOR);
    }
    Some((nodes - 1) as u16)
}

// The child word of node n at the side of a point.
fn next_word(nodes: &Table<'_, Node>, n: u16, point: Point) -> Option<u16>
    ensures { IsSomeAnd (slice_get nodes.now.records n) (λ found. IsInRange found.x × IsInRange found.y)
        → IsSomeAnd result (λ next. IsSomeAnd (slice_get nodes.now.records n)
        (λ found. next ≡ word_at found (side_of (partition_of found) point))) }
{
    let node = nodes.get(usize::from(n))?;
    word_beside(&node, point)
}

fn word_beside(node: &Node, point: Point) -> Option<u16>
    ensures { IsInRange node.now.x → IsInRange node.now.y
        → IsSomeAnd result (λ next. next ≡ word_at node.now (side_of (partition_of node.now) point)) }
{
    // Its origin is in range. This tests both numbers at once, where `Partition::of` has two tests.
    let _origin = Point::new(i32::from(node.x), i32::from(node.y))?;
    let (front, back) = (node.child0, node.child1);
    Some(match side(point, Partition::at(node)) {
        Side::Front => front,
        Side::Back => back,
    })
}
