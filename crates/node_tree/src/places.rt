//! The places of a tree, its nodes and ssectors, by their numbers in one row.

ghost use Rattle.std.specs.Prelude.{◌≡◌, ◌<◌, ◌^◌, IfSome};
ghost use Rattle.std.specs.Option.{option_map};
ghost use Rattle.map_geo.specs.declared.sides.Side.TheVariants.{Front, Back};
ghost use Rattle.node_tree.specs.Line.{line_partition};
ghost use Rattle.node_tree.specs.Shape.{node_count, ssector_count};
ghost use Rattle.node_tree.specs.Slots.{child_slot, root_slot, slot_count};

use crate::forked::{Children, Forked, Line};
use le_rec::Node;
use map_level::search::Searched;
use std::marker::Model;

/// A tree with its nodes and ssectors numbered in one row, the nodes first.
#[derive(Drop)]
pub struct Places<'t, T: Forked> {
    tree: &'t T,
    nodes: usize,
    ssectors: usize,
}

impl<'t, T: Forked> Model for Places<'t, T> {
    ghost use Rattle.std.specs.Prelude.{◌≡◌, ◌<◌, ◌^◌};
    ghost use Rattle.node_tree.specs.Shape.{node_count, ssector_count};

    ghost Value = { T };

    ghost view = { λ places. places.tree.now };

    ghost invariant = { λ places.
        (places.nodes ≡ node_count (T.shape places.tree.now))
        × (places.ssectors ≡ ssector_count (T.shape places.tree.now))
        × (places.nodes < 2 ^ 31)
        × (places.ssectors < 2 ^ 31) };
}

impl<'t, T: Forked> Searched for Places<'t, T> {
    ghost use Rattle.node_tree.specs.TreeFaults.{TreeHolds};

    ghost holds = { λ tree. TreeHolds (T.shape tree) };
}

impl<'t, T: Forked> Places<'t, T> {
    /// The places of a tree.
    pub fn of(tree: &'t T) -> Places<'t, T>
        ensures { result ≡ tree.now }
    {
        Places {
            tree,
            nodes: tree.node_count(),
            ssectors: tree.ssector_count(),
        }
    }

    /// How many nodes there are.
    #[inline]
    pub fn nodes(&self) -> usize
        ensures is { result ≡ node_count (T.shape self.now) }
        ensures few { result < 2 ^ 31 }
    {
        self.nodes
    }

    /// How many ssectors there are.
    #[inline]
    pub fn ssectors(&self) -> usize
        ensures is { result ≡ ssector_count (T.shape self.now) }
        ensures few { result < 2 ^ 31 }
    {
        self.ssectors
    }

    /// The numbers of the two children of a place; None of an ssector.
    #[inline]
    pub fn children(&self, place: usize) -> Children
        ensures front { result.front ≡ child_slot (T.shape self.now) place Front }
        ensures back { result.back ≡ child_slot (T.shape self.now) place Back }
        ensures front_in { IfSome result.front (λ k. k < slot_count (T.shape self.now)) }
        ensures back_in { IfSome result.back (λ k. k < slot_count (T.shape self.now)) }
    {
        self.tree.children(place)
    }

    /// The partition line of a node, or None where there are fewer nodes.
    #[inline]
    pub fn line(&self, node: usize) -> Option<Line>
        ensures { (T.shape self.now).partition node ≡ option_map line_partition result }
    {
        self.tree.line(node)
    }

    /// The number of the root, or None where there are neither nodes nor ssectors.
    pub fn root(&self) -> Option<usize>
        ensures is { result ≡ root_slot (T.shape self.now) }
        ensures within { IfSome result (λ k. k < slot_count (T.shape self.now)) }
    {
        if self.nodes > 0 {
            Some(self.nodes - 1)
        } else if self.ssectors > 0 {
            Some(0)
        } else {
            None
        }
    }
}

/// A record with this partition line, of which a `Partition` is made.
#[inline]
pub fn record_of(line: Line) -> Node
    ensures x { result.x ≡ line.x }
    ensures y { result.y ≡ line.y }
    ensures dx { result.dx ≡ line.dx }
    ensures dy { result.dy ≡ line.dy }
{
    Node {
        x: line.x,
        y: line.y,
        dx: line.dx,
        dy: line.dy,
        box0: [0; 4],
        box1: [0; 4],
        child0: 0,
        child1: 0,
    }
}
