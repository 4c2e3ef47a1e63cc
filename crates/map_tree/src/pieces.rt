//! Pieces of a census: rectangles with the places that they have come to.

ghost use Rattle.std.specs.Prelude.{◌≡◌};
ghost use Rattle.map_tree.specs.Child.{word_at};

use le_rec::Node;
use map_geo::{Rect, Side};

/// A rectangle and the child word of the place that it has reached.
#[derive(Clone, Copy)]
pub struct Piece {
    pub rect: Rect,
    pub word: u16,
}

/// A piece cut in two, and how many tests that took. The second is taken first.
#[derive(Clone, Copy)]
pub struct Halves {
    pub first: Piece,
    pub second: Piece,
    pub tests: u64,
}

/// What happens to a piece.
#[derive(Clone, Copy)]
pub enum Step {
    /// It has come to an ssector, with so many points.
    AtSsector(u16, u32),
    /// It goes whole to a child.
    Down(Piece),
    /// It is cut.
    Apart(Halves),
}

/// A node's child word at a side.
#[inline]
pub fn word_at(node: &Node, side: Side) -> u16
    ensures { result ≡ word_at node.now side }
{
    match side {
        Side::Front => node.child0,
        Side::Back => node.child1,
    }
}
