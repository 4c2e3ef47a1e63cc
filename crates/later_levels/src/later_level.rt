//! A level whose nodes stand in a later format.

ghost use Rattle.std.specs.Prelude.{◌≡◌, ◌<◌, ◌^◌, ◌↔◌, length, IfSome, IsSome};

use map_level::Level;
use node_lumps::LaterNodes;
use node_tree::LaterTree;
use std::marker::Model;

/// A level whose nodes stand in a later format: what it has besides its nodes, and the nodes. It borrows both.
#[derive(Drop)]
pub struct LaterLevel<'n, 'a> {
    level: &'n Level<'a>,
    nodes: &'n LaterNodes<'a>,
    tree: LaterTree<'n, 'a>,
}

impl<'n, 'a> Model for LaterLevel<'n, 'a> {
    ghost use Rattle.std.specs.Prelude.{◌≡◌, ◌<◌, ◌^◌, length};
    ghost use Rattle.later_levels.specs.LaterLevel as later_level;

    ghost Value = { later_level.LaterLevel };

    ghost view = { λ one. record { level = one.level.now; later = one.nodes.now } };

    ghost invariant = { λ one. (one.tree ≡ one.nodes.now) × (length one.nodes.now.segs < 2 ^ 31)
        × (length one.nodes.now.ssectors < 2 ^ 31) };
}

impl<'n, 'a> LaterLevel<'n, 'a> {
    /// A level and its nodes; None where there are 2147483648 nodes, ssectors or segs, or more, which no lump of a WAD file
    /// holds.
    pub fn of(level: &'n Level<'a>, nodes: &'n LaterNodes<'a>) -> Option<LaterLevel<'n, 'a>>
        ensures some { IsSome result ↔ ((length nodes.now.nodes < 2 ^ 31)
            × ((length nodes.now.ssectors < 2 ^ 31) × (length nodes.now.segs < 2 ^ 31))) }
        ensures is { IfSome result (λ one. (one.level ≡ level.now) × (one.later ≡ nodes.now)) }
    {
        let tree = LaterTree::of(nodes)?;
        if nodes.seg_count() >= 1 << 31 {
            return None;
        }
        Some(LaterLevel { level, nodes, tree })
    }

    /// What the level has besides its nodes.
    #[inline]
    pub fn level(&self) -> &'n Level<'a>
        ensures { result.now ≡ self.now.level }
    {
        self.level
    }

    /// Its nodes.
    #[inline]
    pub fn nodes(&self) -> &'n LaterNodes<'a>
        ensures is { result.now ≡ self.now.later }
        ensures segs { length self.now.later.segs < 2 ^ 31 }
        ensures ssectors { length self.now.later.ssectors < 2 ^ 31 }
    {
        self.nodes
    }

    /// The tree of its nodes.
    #[inline]
    pub fn tree(&self) -> &LaterTree<'n, 'a>
        ensures { result.now ≡ self.now.later }
    {
        &self.tree
    }
}
