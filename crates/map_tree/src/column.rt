//! The column at which a row's side changes, without a search.

ghost use Rattle.std.specs.Prelude.{◌≡◌, ◌<ℤ◌};
ghost use Rattle.map_geo.specs.Point.{IsInRange, point_at};
ghost use Rattle.map_geo.specs.Partition.{partition_of};
ghost use Rattle.map_geo.specs.Side.{other, side_of};
ghost use Rattle.map_tree.specs.Cuts.{IsLast};

use le_rec::Node;
use map_geo::{Partition, Point, Side, side};

/// The last column with side `s` of row `y`, from column `x0`, which has it, to `x1`, which doesn't. For an upright partition
/// it is the partition's own column, and of two columns it is the first.
#[inline]
pub fn last_column(node: &Node, y: i32, s: Side, x0: i32, x1: i32) -> i32
    requires x_in { IsInRange node.now.x }
    requires y_in { IsInRange node.now.y }
    requires row_in { IsInRange y }
    requires left_in { IsInRange x0 }
    requires right_in { IsInRange x1 }
    requires ordered { x0 <ℤ x1 }
    requires left { side_of (partition_of node.now) (point_at x0 y) ≡ s }
    requires right { side_of (partition_of node.now) (point_at x1 y) ≡ other s }
    ensures { IsLast (partition_of node.now) y s x0 x1 result }
{
    if node.dx == 0 {
        i32::from(node.x)
    } else if x0 + 1 == x1 {
        x0
    } else {
        met_column(node, y, s, x0, x1)
    }
}

// That column by a division: the line of the partition comes nearer by dy with each column.
fn met_column(node: &Node, y: i32, s: Side, x0: i32, x1: i32) -> i32
    requires x_in { IsInRange node.now.x }
    requires y_in { IsInRange node.now.y }
    requires row_in { IsInRange y }
    requires left_in { IsInRange x0 }
    requires right_in { IsInRange x1 }
    requires ordered { x0 <ℤ x1 }
    requires left { side_of (partition_of node.now) (point_at x0 y) ≡ s }
    requires right { side_of (partition_of node.now) (point_at x1 y) ≡ other s }
    ensures { IsLast (partition_of node.now) y s x0 x1 result }
{
    let partition = Partition::at(node);
    let distance = partition.cross(Point::at(x0, y)).unsigned_abs();
    let step = i32::from(node.dy).unsigned_abs();
    let met = x0 + (distance / step).cast_signed();
    // A point of the line itself may be on either side.
    if distance % step == 0 && side(Point::at(met, y), partition) != s {
        met - 1
    } else {
        met
    }
}
