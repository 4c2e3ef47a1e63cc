//! What is asked of a tree of nodes.

/// The partition line of a node: through (x, y) in the direction (dx, dy).
#[derive(Clone, Copy, Debug, PartialEq, Eq)]
pub struct Line {
    pub x: i16,
    pub y: i16,
    pub dx: i16,
    pub dy: i16,
}

/// What stands on the two sides of a node, by its number in one row: the nodes, and then the ssectors. It is None where
/// the node's word names nothing that is there.
#[derive(Clone, Copy, Debug, PartialEq, Eq)]
pub struct Children {
    pub front: Option<usize>,
    pub back: Option<usize>,
}

/// Nodes and ssectors as a tree. The words of its nodes may have any number of bits.
pub trait Forked {
    ghost use Rattle.std.specs.Prelude.{◌≡◌, ◌<◌, ◌^◌};
    ghost use Rattle.std.specs.Option.{option_map};
    ghost use Rattle.map_geo.specs.declared.sides.Side.TheVariants.{Front, Back};
    ghost use Rattle.node_tree.specs.Shape.{Shape, node_count, ssector_count};
    ghost use Rattle.node_tree.specs.Line.{line_partition};
    ghost use Rattle.node_tree.specs.Slots.{child_slot};

    /// The tree as the definitions see it.
    ghost shape: { Self → Shape };

    /// How many nodes there are.
    fn node_count(&self) -> usize
        ensures is { result ≡ node_count (shape self.now) }
        ensures few { result < 2 ^ 31 };

    /// How many ssectors there are.
    fn ssector_count(&self) -> usize
        ensures is { result ≡ ssector_count (shape self.now) }
        ensures few { result < 2 ^ 31 };

    /// What stands on the two sides of a node; None on both where there are fewer nodes.
    fn children(&self, node: usize) -> Children
        ensures front { result.front ≡ child_slot (shape self.now) node Front }
        ensures back { result.back ≡ child_slot (shape self.now) node Back };

    /// The partition line of a node, or None where there are fewer.
    fn line(&self, node: usize) -> Option<Line>
        ensures { (shape self.now).partition node ≡ option_map line_partition result };
}
