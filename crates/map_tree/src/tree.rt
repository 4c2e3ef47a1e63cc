//! The descent of a point through the nodes of a sound level (`R_PointInSubsector` of linuxdoom 1.10).

ghost use Rattle.std.specs.Prelude.{◌≡◌, ◌<◌, ◌≤◌, ℕ, Some, IsSomeAnd, length};
ghost use Rattle.std.specs.List.{All, slice_get};
ghost use Rattle.map_geo.specs.Point.{IsInRange};
ghost use Rattle.map_geo.specs.Partition.{partition_of};
ghost use Rattle.map_geo.specs.Side.{side_of};
ghost use Rattle.map_level.specs.SectorOf.{sector_of};
ghost use Rattle.map_tree.specs.Paths.{ssector};
ghost use Rattle.map_tree.specs.Child.{node_count, ssector_count, place_of, word_at, root_of};
ghost use Rattle.map_tree.specs.Sound.{IsSound};
ghost use Rattle.map_tree.specs.Leaf.{Each, IsLeaf, CountsAncestors};
ghost use Rattle.map_tree.specs.Steps.{IsWord};

use crate::places::NF_SUBSECTOR;
use le_rec::{Node, Table};
use map_geo::{Partition, Point, Side, side};
use map_level::Level;
use std::marker::Model;

/// The tree of a sound level. It borrows the level, and decodes a node when a descent meets it.
#[derive(Drop)]
pub struct Tree<'l, 'a> {
    level: &'l Level<'a>,
}

impl<'l, 'a> Model for Tree<'l, 'a> {
    ghost use Rattle.map_level.specs.Level.{Level};
    ghost use Rattle.map_tree.specs.Sound.{IsSound};

    ghost Value = { Level };

    ghost view = { λ tree. tree.level.now };

    ghost invariant = { λ tree. IsSound tree.level.now };
}

impl<'l, 'a> Tree<'l, 'a> {
    /// The tree of a level without faults F3 to F18, which `is_sound` finds out.
    pub fn of(level: &'l Level<'a>) -> Tree<'l, 'a>
        requires { IsSound level.now }
        ensures { result ≡ level.now }
    {
        Tree { level }
    }

    // The level.
    #[inline]
    pub(crate) fn level(&self) -> &'l Level<'a>
        ensures is { result.now ≡ self.now }
        ensures sound { IsSound self.now }
    {
        self.level
    }

    /// The number of the ssector in which the point lies, and how many tests of its side it took: one
    /// for each node above that ssector.
    pub fn leaf(&self, point: Point) -> (u16, u32)
        ensures leaf { IsLeaf self.now point result.0 }
        ensures only { (t : ℕ) → IsLeaf self.now point t → t ≡ result.0 }
        ensures tests { CountsAncestors self.now result.0 result.1 }
        ensures few { result.1 ≤ node_count self.now }
        ensures within { result.0 < ssector_count self.now }
    {
        let nodes = self.level.nodes();
        let mut word = root_word(nodes.len());
        let mut tests = 0;
        while word < NF_SUBSECTOR {
            word = next_word(&nodes, word, point);
            tests += 1;
        }
        (ssector_of(word), tests)
    }

    /// The numbers of the ssectors in which four points lie, in their order. The points go down together, so that none
    /// waits for the product that tells another's side.
    pub fn leaves(&self, points: [Point; 4]) -> [u16; 4]
        ensures { Each (IsLeaf self.now) points result }
    {
        let [p, q, r, s] = points;
        let nodes = self.level.nodes();
        let root = root_word(nodes.len());
        let (mut a, mut b, mut c, mut d) = (root, root, root, root);
        'turns: for _turn in 0..nodes.len() {
            if a.min(b).min(c.min(d)) >= NF_SUBSECTOR {
                break;
            }
            a = word_below(&nodes, a, p);
            b = word_below(&nodes, b, q);
            c = word_below(&nodes, c, r);
            d = word_below(&nodes, d, s);
        }
        ssectors_of([a, b, c, d])
    }

    /// The number of the sector in which the point lies: that of its ssector.
    pub fn sector(&self, point: Point) -> u16
        ensures { (t : ℕ) → IsLeaf self.now point t → sector_of self.now t ≡ Some result }
    {
        let (t, _) = self.leaf(point);
        self.level.ssector_sector(u32::from(t))
    }
}

/// The word that names the root: the last of so many nodes, or ssector 0 where there are none.
pub fn root_word(nodes: usize) -> u16
    requires { nodes ≤ 32767 }
    ensures { place_of result ≡ root_of nodes }
{
    if nodes == 0 {
        return NF_SUBSECTOR;
    }
    (nodes - 1) as u16
}

// The ssector that a word names.
#[inline]
fn ssector_of(word: u16) -> u16
    requires { 32768 ≤ word }
    ensures { place_of word ≡ ssector result }
{
    word - NF_SUBSECTOR
}

// The ssectors that four words name.
#[inline]
fn ssectors_of(words: [u16; 4]) -> [u16; 4]
    requires { All (λ word. 32768 ≤ word) words }
    ensures { Each (λ word t. place_of word ≡ ssector t) words result }
{
    let [a, b, c, d] = words;
    [ssector_of(a), ssector_of(b), ssector_of(c), ssector_of(d)]
}

// The word to which a point goes from a word: at a node the child's at its side, and at an ssector the same.
#[inline]
fn word_below(nodes: &Table<'_, Node>, word: u16, point: Point) -> u16
    requires { IsWord nodes.now.records word }
    ensures node { word < 32768 → IsSomeAnd (slice_get nodes.now.records word)
        (λ found. result ≡ word_at found (side_of (partition_of found) point)) }
    ensures ssector { 32768 ≤ word → result ≡ word }
{
    if word < NF_SUBSECTOR {
        next_word(nodes, word, point)
    } else {
        word
    }
}

// The child word of node n at the side of a point.
#[inline]
fn next_word(nodes: &Table<'_, Node>, n: u16, point: Point) -> u16
    requires there { n < length nodes.now.records }
    requires origin { IsSomeAnd (slice_get nodes.now.records n)
        (λ found. IsInRange found.x × IsInRange found.y) }
    ensures { IsSomeAnd (slice_get nodes.now.records n)
        (λ found. result ≡ word_at found (side_of (partition_of found) point)) }
{
    word_beside(&nodes.at(usize::from(n)), point)
}

// Both words are loaded before the test, and one is selected after it.
#[inline]
fn word_beside(node: &Node, point: Point) -> u16
    requires x_in { IsInRange node.now.x }
    requires y_in { IsInRange node.now.y }
    ensures { result ≡ word_at node.now (side_of (partition_of node.now) point) }
{
    let (front, back) = (node.child0, node.child1);
    match side(point, Partition::at(node)) {
        Side::Front => front,
        Side::Back => back,
    }
}
