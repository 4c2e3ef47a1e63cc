//! The places of a level, its nodes and ssectors, by their numbers in one row.

ghost use Rattle.std.specs.Prelude.{◌≡◌, ◌<◌, ◌+◌, ◌^◌, IfSome, Some};
ghost use Rattle.std.specs.Option.{option_map};
ghost use Rattle.map_geo.specs.declared.sides.Side.TheVariants.{Front, Back};
ghost use Rattle.map_tree.specs.Child.{node_count, ssector_count, place_of, where_there};
ghost use Rattle.map_tree.specs.Slots.{slot, slot_count, child_slot, root_slot};

use le_rec::{Node, Table};
use map_level::Level;
use map_level::search::Searched;
use std::marker::Model;

/// The bit of a child word that says that it names an ssector (doomdata.h).
pub const NF_SUBSECTOR: u16 = 0x8000;

/// A level with its nodes and ssectors numbered in one row, the nodes first.
#[derive(Drop)]
pub struct Places<'l, 'a> {
    level: &'l Level<'a>,
    nodes: usize,
    ssectors: usize,
}

impl<'l, 'a> Model for Places<'l, 'a> {
    ghost use Rattle.std.specs.Prelude.{◌≡◌, ◌<◌, ◌^◌};
    ghost use Rattle.map_level.specs.Level.{Level};
    ghost use Rattle.map_tree.specs.Child.{node_count, ssector_count};

    ghost Value = { Level };

    ghost view = { λ places. places.level.now };

    ghost invariant = { λ places.
        (places.nodes ≡ node_count places.level.now)
        × (places.ssectors ≡ ssector_count places.level.now)
        × (places.nodes < 2 ^ 31)
        × (places.ssectors < 2 ^ 31) };
}

impl<'l, 'a> Searched for Places<'l, 'a> {
    ghost use Rattle.map_tree.specs.TreeFaults.{TreeHolds};

    ghost holds = { TreeHolds };
}

impl<'l, 'a> Places<'l, 'a> {
    /// The places of a level.
    pub fn of(level: &'l Level<'a>) -> Places<'l, 'a>
        ensures { result ≡ level.now }
    {
        Places {
            level,
            nodes: level.nodes().len(),
            ssectors: level.ssectors().len(),
        }
    }

    /// How many nodes there are.
    #[inline]
    pub fn nodes(&self) -> usize
        ensures is { result ≡ node_count self.now }
        ensures few { result < 2 ^ 31 }
    {
        self.nodes
    }

    /// How many ssectors there are.
    #[inline]
    pub fn ssectors(&self) -> usize
        ensures is { result ≡ ssector_count self.now }
        ensures few { result < 2 ^ 31 }
    {
        self.ssectors
    }

    /// The table of the nodes.
    #[inline]
    pub fn table(&self) -> Table<'a, Node>
        ensures { result ≡ self.now.nodes }
    {
        self.level.nodes()
    }

    /// The number of the place that a child word names, or None where there is none.
    #[inline]
    pub fn slot(&self, word: u16) -> Option<usize>
        ensures is { result
            ≡ option_map (slot self.now) (where_there self.now (place_of word)) }
        ensures within { IfSome result (λ k. k < slot_count self.now) }
    {
        if word < NF_SUBSECTOR {
            let n = usize::from(word);
            (n < self.nodes).then_some(n)
        } else {
            let t = usize::from(word - NF_SUBSECTOR);
            (t < self.ssectors).then_some(self.nodes + t)
        }
    }

    /// The numbers of the two children of node n.
    #[inline]
    pub fn children(&self, n: usize) -> Children
        ensures front { result.front ≡ child_slot self.now n Front }
        ensures back { result.back ≡ child_slot self.now n Back }
        ensures front_in { IfSome result.front (λ k. k < slot_count self.now) }
        ensures back_in { IfSome result.back (λ k. k < slot_count self.now) }
    {
        match self.table().get(n) {
            Some(node) => self.children_of(&node),
            None => Children {
                front: None,
                back: None,
            },
        }
    }

    #[inline]
    fn children_of(&self, node: &Node) -> Children
        ensures front { result.front
            ≡ option_map (slot self.now) (where_there self.now (place_of node.now.child0)) }
        ensures back { result.back
            ≡ option_map (slot self.now) (where_there self.now (place_of node.now.child1)) }
        ensures front_in { IfSome result.front (λ k. k < slot_count self.now) }
        ensures back_in { IfSome result.back (λ k. k < slot_count self.now) }
    {
        Children {
            front: self.slot(node.child0),
            back: self.slot(node.child1),
        }
    }

    /// The number of the root, or None in a level with neither nodes nor ssectors.
    pub fn root(&self) -> Option<usize>
        ensures is { result ≡ root_slot self.now }
        ensures within { IfSome result (λ k. k < slot_count self.now) }
    {
        if self.nodes > 0 {
            Some(self.nodes - 1)
        } else if self.ssectors > 0 {
            Some(0)
        } else {
            None
        }
    }
}

/// The numbers of a node's two children, each None where its word names nothing.
#[derive(Clone, Copy)]
pub struct Children {
    pub front: Option<usize>,
    pub back: Option<usize>,
}
