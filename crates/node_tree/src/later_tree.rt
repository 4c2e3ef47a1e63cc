//! The tree of nodes in a later format.

ghost use Rattle.std.specs.Prelude.{◌≡◌, ◌<◌, ◌^◌, length, IfSome, IsSome, ◌↔◌};
ghost use Rattle.std.specs.Option.{option_map};
ghost use Rattle.node_lumps.specs.Later.{Later};
ghost use Rattle.node_tree.specs.LaterShape.{place_in, place_named, shape_of};
ghost use Rattle.node_tree.specs.Slots.{slot};

use crate::forked::{Children, Forked, Line};
use node_lumps::{LaterNodes, NodeChild};
use std::marker::Model;

/// The tree of nodes in a later format. It borrows them, and decodes a node when it is asked for.
#[derive(Drop)]
pub struct LaterTree<'n, 'a> {
    nodes: &'n LaterNodes<'a>,
    node_count: usize,
    ssector_count: usize,
}

impl<'n, 'a> Model for LaterTree<'n, 'a> {
    ghost use Rattle.std.specs.Prelude.{◌≡◌, ◌<◌, ◌^◌, length};
    ghost use Rattle.node_lumps.specs.Later.{Later};

    ghost Value = { Later };

    ghost view = { λ tree. tree.nodes.now };

    ghost invariant = { λ tree.
        (tree.node_count ≡ length tree.nodes.now.nodes)
        × (tree.ssector_count ≡ length tree.nodes.now.ssectors)
        × (tree.node_count < 2 ^ 31)
        × (tree.ssector_count < 2 ^ 31) };
}

impl<'n, 'a> LaterTree<'n, 'a> {
    /// The tree of nodes; None where there are 2147483648 nodes or ssectors, or more, which no lump of a WAD file holds.
    pub fn of(nodes: &'n LaterNodes<'a>) -> Option<LaterTree<'n, 'a>>
        ensures some { IsSome result ↔ ((length nodes.now.nodes < 2 ^ 31) × (length nodes.now.ssectors < 2 ^ 31)) }
        ensures is { IfSome result (λ tree. tree ≡ nodes.now) }
    {
        let node_count = nodes.node_count();
        let ssector_count = nodes.ssector_count();
        if node_count >= 1 << 31 || ssector_count >= 1 << 31 {
            return None;
        }
        Some(LaterTree {
            nodes,
            node_count,
            ssector_count,
        })
    }

    // The number of the place that a child word names, or None where there is none.
    #[inline]
    fn slot(&self, child: NodeChild) -> Option<usize>
        ensures { result ≡ option_map (slot (shape_of self.now)) (place_in self.now (place_named child)) }
    {
        match child {
            NodeChild::Node(n) => {
                let n = n as usize;
                (n < self.node_count).then_some(n)
            }
            NodeChild::Ssector(t) => {
                let t = t as usize;
                (t < self.ssector_count).then_some(self.node_count + t)
            }
        }
    }
}

impl<'n, 'a> Forked for LaterTree<'n, 'a> {
    ghost use Rattle.node_tree.specs.LaterShape.{shape_of};

    ghost shape = { shape_of };

    #[inline]
    fn node_count(&self) -> usize {
        self.node_count
    }

    #[inline]
    fn ssector_count(&self) -> usize {
        self.ssector_count
    }

    #[inline]
    fn children(&self, node: usize) -> Children {
        match self.nodes.node(node) {
            Some(found) => Children {
                front: self.slot(found.front),
                back: self.slot(found.back),
            },
            None => Children {
                front: None,
                back: None,
            },
        }
    }

    #[inline]
    fn line(&self, node: usize) -> Option<Line> {
        let found = self.nodes.node(node)?;
        Some(Line {
            x: found.x,
            y: found.y,
            dx: found.dx,
            dy: found.dy,
        })
    }
}
