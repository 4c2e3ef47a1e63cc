//! The descent of a point through the nodes of a sound tree (`R_PointInSubsector` of linuxdoom 1.10).

ghost use Rattle.std.specs.Prelude.{◌≡◌, ◌<◌, ◌≤◌, ℕ};
ghost use Rattle.map_geo.specs.Point.{IsInRange};
ghost use Rattle.map_geo.specs.Side.{side_of};
ghost use Rattle.node_tree.specs.Leaf.{CountsAncestors, IsLeaf};
ghost use Rattle.node_tree.specs.Line.{line_partition};
ghost use Rattle.node_tree.specs.Shape.{node_count, ssector_count};
ghost use Rattle.node_tree.specs.Sound.{IsSound};
ghost use Rattle.node_tree.specs.Steps.{IsStep};

use crate::forked::{Forked, Line};
use crate::places::record_of;
use map_geo::{Partition, Point, Side, side};

/// The number of the ssector in which the point lies, and how many tests of its side it took: one for each node above
/// that ssector. `is_sound` tells whether a tree is sound.
pub fn leaf<T: Forked>(tree: &T, point: Point) -> (usize, usize)
    requires { IsSound (T.shape tree.now) }
    ensures leaf { IsLeaf (T.shape tree.now) point result.0 }
    ensures only { (t : ℕ) → IsLeaf (T.shape tree.now) point t → t ≡ result.0 }
    ensures tests { CountsAncestors (T.shape tree.now) result.0 result.1 }
    ensures few { result.1 ≤ node_count (T.shape tree.now) }
    ensures within { result.0 < ssector_count (T.shape tree.now) }
{
    let nodes = tree.node_count();
    let mut place = nodes.saturating_sub(1);
    let mut tests = 0;
    while place < nodes {
        place = place_below(tree, place, point);
        tests += 1;
    }
    (place - nodes, tests)
}

// The place below a node on the point's side.
#[inline]
fn place_below<T: Forked>(tree: &T, node: usize, point: Point) -> usize
    requires sound { IsSound (T.shape tree.now) }
    requires there { node < node_count (T.shape tree.now) }
    ensures { IsStep (T.shape tree.now) point node result }
{
    let children = tree.children(node);
    let line = tree.line(node).unwrap();
    match side_at(line, point) {
        Side::Front => children.front.unwrap(),
        Side::Back => children.back.unwrap(),
    }
}

// The side of a line on which a point lies.
#[inline]
fn side_at(line: Line, point: Point) -> Side
    requires x_in { IsInRange line.x }
    requires y_in { IsInRange line.y }
    ensures { result ≡ side_of (line_partition line) point }
{
    side(point, Partition::at(&record_of(line)))
}
