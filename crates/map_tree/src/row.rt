//! Where the side of a partition changes in a row.

ghost use Rattle.std.specs.Prelude.{◌≡◌, ◌<ℤ◌, ◌≤◌};
ghost use Rattle.map_geo.specs.Point.{IsInRange, point_at};
ghost use Rattle.map_geo.specs.Side.{other, side_of};
ghost use Rattle.map_tree.specs.Cuts.{IsMiddle, IsLast, Halvings};

use map_geo::{Partition, Point, Side, side};

/// The last column of a row with the side of its left end, and how many halvings found it.
#[derive(Clone, Copy)]
pub struct Last {
    pub column: i32,
    pub halvings: u64,
}

/// Half of the sum, rounded down.
#[inline]
pub fn middle(low: i32, high: i32) -> i32
    requires low_in { IsInRange low }
    requires high_in { IsInRange high }
    ensures middle { IsMiddle result low high }
    ensures in_range { IsInRange result }
{
    (low + high) >> 1
}

/// The last column with side `s` of row `y`, from column `x0`, which has it, to `x1`, which doesn't:
/// a row's side changes once.
pub fn last_of_side(partition: Partition, y: i32, s: Side, x0: i32, x1: i32) -> Last
    requires row_in { IsInRange y }
    requires left_in { IsInRange x0 }
    requires right_in { IsInRange x1 }
    requires ordered { x0 <ℤ x1 }
    requires left { side_of partition (point_at x0 y) ≡ s }
    requires right { side_of partition (point_at x1 y) ≡ other s }
    ensures last { IsLast partition y s x0 x1 result.column }
    ensures halvings { Halvings partition y s x0 x1 result.halvings }
    ensures few { result.halvings ≤ 32767 }
{
    let mut l = x0;
    let mut e = x1;
    let mut halvings = 0;
    while l + 1 < e {
        let m = middle(l, e);
        if side(Point::at(m, y), partition) == s {
            l = m;
        } else {
            e = m;
        }
        halvings += 1;
    }
    Last {
        column: l,
        halvings,
    }
}
