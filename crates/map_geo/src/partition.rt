//! Partitions of nodes, and on which side of one a point lies.

ghost use Rattle.std.specs.Prelude.{◌≡◌, ◌↔◌, true, pos, IsSome, IfSome, ◌*ℤ◌, ◌-ℤ◌, ◌≤◌, unsigned_abs};
ghost use Rattle.std.specs.Ordering.{int_cmp};
ghost use Rattle.map_geo.specs.Point.{IsInRange};
ghost use Rattle.map_geo.specs.Partition.{IsStep, partition_of};
ghost use Rattle.map_geo.specs.Side.{cross, is_origin, side_of_tie, side_of};

use crate::point::{Point, is_in_range};
use crate::sides::Side;
use le_rec::Node;
use std::cmp::Ordering;
use std::marker::Model;

/// The partition of a node: the line through its origin in its direction.
#[derive(Clone, Copy, Debug, PartialEq, Eq)]
pub struct Partition {
    x: i32,
    y: i32,
    dx: i32,
    dy: i32,
}

impl Model for Partition {
    ghost use Rattle.map_geo.specs.Point.{IsInRange};
    ghost use Rattle.map_geo.specs.Partition as partition;
    ghost use Rattle.map_geo.specs.Partition.{IsStep};

    ghost Value = { partition.Partition };

    ghost view = { λ p. record { x = p.x; y = p.y; dx = p.dx; dy = p.dy } };

    ghost invariant = { λ p. IsInRange p.x × IsInRange p.y × IsStep p.dx × IsStep p.dy };

    ghost inverse = { λ p. record { x = p.x; y = p.y; dx = p.dx; dy = p.dy } };
}

impl Partition {
    /// The partition of the node, or None if its origin is outside -16384..16383.
    #[inline]
    pub fn of(node: &Node) -> Option<Partition>
        ensures some { IsSome result ↔ (IsInRange node.now.x × IsInRange node.now.y) }
        ensures value { IfSome result (λ partition. partition ≡ partition_of node.now) }
    {
        let (x, y) = (i32::from(node.x), i32::from(node.y));
        if is_in_range(x) && is_in_range(y) {
            Some(Partition::at(node))
        } else {
            None
        }
    }

    /// The partition of a node whose origin is known to be in range.
    #[inline]
    pub fn at(node: &Node) -> Partition
        requires x_in { IsInRange node.now.x }
        requires y_in { IsInRange node.now.y }
        ensures { result ≡ partition_of node.now }
    {
        let (x, y) = (i32::from(node.x), i32::from(node.y));
        let (dx, dy) = (i32::from(node.dx), i32::from(node.dy));
        Partition { x, y, dx, dy }
    }

    /// Above 0 in front of the partition, below 0 behind it, and 0 on its line: left - right in R_PointOnSide of
    /// linuxdoom 1.10. It is at most 2,147,418,112 in size. It changes by dy from one column to the next, and by -dx
    /// from one row to the next.
    #[inline]
    pub fn cross(self, point: Point) -> i32
        ensures { result ≡ cross self point }
    {
        product(self.dy, self.x, point.x()) - product(self.dx, self.y, point.y())
    }

    // Whether it is vertical, so that all points of a column have one side.
    #[inline]
    pub(crate) fn is_upright(self) -> bool
        ensures { result ≡ true → self.dx ≡ pos 0 }
    {
        self.dx == 0
    }

    fn is_origin(self, point: Point) -> bool
        ensures { result ≡ is_origin self point }
    {
        point.x() == self.x && point.y() == self.y
    }
}

// A component of a direction times a difference of coordinates: at most 32,768 times 32,767 in size.
#[inline]
fn product(step: i32, from: i32, to: i32) -> i32
    requires step_in { IsStep step }
    requires from_in { IsInRange from }
    requires to_in { IsInRange to }
    ensures value { result ≡ step *ℤ (to -ℤ from) }
    ensures size { unsigned_abs result ≤ 1073709056 }
{
    step * (to - from)
}

// The side of a point of the line itself, where the cross product is 0.
#[cold]
fn side_of_tie(dx: i32, dy: i32, at_origin: bool) -> Side
    ensures { result ≡ side_of_tie (int_cmp dx (pos 0)) (int_cmp dy (pos 0)) at_origin }
{
    match (dx.cmp(&0), dy.cmp(&0)) {
        (Ordering::Equal, Ordering::Greater) => Side::Back,
        (Ordering::Equal, _) => Side::Front,
        (Ordering::Less, Ordering::Equal) => Side::Back,
        (Ordering::Greater, Ordering::Equal) => Side::Front,
        (Ordering::Less, Ordering::Greater) if at_origin => Side::Front,
        (Ordering::Less, Ordering::Greater) => Side::Back,
        (Ordering::Less, Ordering::Less) => Side::Back,
        (Ordering::Greater, _) => Side::Back,
    }
}

/// The side of the partition on which the point lies. The rule for a point on the line is ours;
/// R_PointOnSide of linuxdoom 1.10 gives the same for whole map units.
#[inline]
pub fn side(point: Point, partition: Partition) -> Side
    ensures { result ≡ side_of partition point }
{
    let c = partition.cross(point);
    if c == 0 {
        return side_of_tie(partition.dx, partition.dy, partition.is_origin(point));
    }
    // Both sides are equally likely, so this is a selection and not a branch.
    if c < 0 { Side::Back } else { Side::Front }
}
