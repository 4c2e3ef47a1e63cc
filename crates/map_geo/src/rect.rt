//! Rectangles of a map, and on which side of a partition all their points lie.

ghost use Rattle.std.specs.Prelude.{◌≡◌, ◌↔◌, ◌⊎◌, ◌≤◌, ◌≤ℤ◌, pos, true, IsSome, IfSome, IsNone, unsigned_abs};
ghost use Rattle.map_geo.specs.declared.sides.Side.{Side};
ghost use Rattle.map_geo.specs.Rect.{point_count, rect_at, span, IsSpan, IsRect, AreCornersOn, IsWholeSide};

use crate::partition::{Partition, side};
use crate::point::{Point, is_in_range};
use crate::sides::Side;
use std::marker::Model;

const MAX_POINTS: i32 = 1_048_576;

/// The points from column x0 to column x1 and from row y0 to row y1, all four included: at least
/// one and at most 1,048,576.
#[derive(Clone, Copy, Debug, PartialEq, Eq)]
pub struct Rect {
    x0: i32,
    y0: i32,
    x1: i32,
    y1: i32,
}

impl Model for Rect {
    ghost use Rattle.map_geo.specs.Rect as rect;
    ghost use Rattle.map_geo.specs.Rect.{rect_at, IsRect};

    ghost Value = { rect.Rect };

    ghost view = { λ r. rect_at r.x0 r.y0 r.x1 r.y1 };

    ghost invariant = { λ r. IsRect (rect_at r.x0 r.y0 r.x1 r.y1) };

    ghost inverse = { λ r. record { x0 = r.x0; y0 = r.y0; x1 = r.x1; y1 = r.y1 } };
}

impl Rect {
    /// The rectangle with these bounds, or None if a coordinate is outside -16384..16383, a lower
    /// bound is past its upper one, or there are more than 1,048,576 points.
    pub fn new(x0: i32, y0: i32, x1: i32, y1: i32) -> Option<Rect>
        ensures some { IsSome result ↔ IsRect (rect_at x0 y0 x1 y1) }
        ensures value { IfSome result (λ rect. rect ≡ rect_at x0 y0 x1 y1) }
    {
        let columns = span(x0, x1)?;
        let rows = span(y0, y1)?;
        if columns * rows <= MAX_POINTS {
            Some(Rect { x0, y0, x1, y1 })
        } else {
            None
        }
    }

    /// The least column.
    #[inline]
    pub fn x0(self) -> i32
        ensures value { result ≡ self.x0 }
        ensures valid { IsRect self }
    {
        self.x0
    }

    /// The least row.
    #[inline]
    pub fn y0(self) -> i32
        ensures value { result ≡ self.y0 }
        ensures valid { IsRect self }
    {
        self.y0
    }

    /// The greatest column.
    #[inline]
    pub fn x1(self) -> i32
        ensures value { result ≡ self.x1 }
        ensures valid { IsRect self }
    {
        self.x1
    }

    /// The greatest row.
    #[inline]
    pub fn y1(self) -> i32
        ensures value { result ≡ self.y1 }
        ensures valid { IsRect self }
    {
        self.y1
    }

    /// How many points it has.
    #[inline]
    pub fn point_count(self) -> u32
        ensures value { result ≡ point_count self }
        ensures most { result ≤ 1048576 }
    {
        length(self.y0(), self.y1()) * length(self.x0(), self.x1())
    }

    /// Its rows up to y.
    #[inline]
    pub fn rows_to(self, y: i32) -> Rect
        requires from { self.y0 ≤ℤ y }
        requires to { y ≤ℤ self.y1 }
        ensures { result ≡ record self { y1 = y } }
    {
        Rect { y1: y, ..self }
    }

    /// Its rows from y on.
    #[inline]
    pub fn rows_from(self, y: i32) -> Rect
        requires from { self.y0 ≤ℤ y }
        requires to { y ≤ℤ self.y1 }
        ensures { result ≡ record self { y0 = y } }
    {
        Rect { y0: y, ..self }
    }

    /// Its columns up to x.
    #[inline]
    pub fn columns_to(self, x: i32) -> Rect
        requires from { self.x0 ≤ℤ x }
        requires to { x ≤ℤ self.x1 }
        ensures { result ≡ record self { x1 = x } }
    {
        Rect { x1: x, ..self }
    }

    /// Its columns from x on.
    #[inline]
    pub fn columns_from(self, x: i32) -> Rect
        requires from { self.x0 ≤ℤ x }
        requires to { x ≤ℤ self.x1 }
        ensures { result ≡ record self { x0 = x } }
    {
        Rect { x0: x, ..self }
    }
}

// How many coordinates there are from the first to the last: at most 32,768.
fn span(first: i32, last: i32) -> Option<i32>
    ensures some { IsSome result ↔ IsSpan first last }
    ensures value { IfSome result (λ n. n ≡ span first last) }
{
    if is_in_range(first) && is_in_range(last) && first <= last {
        Some(last - first + 1)
    } else {
        None
    }
}

// How many whole numbers there are from the first to the last.
#[inline]
fn length(first: i32, last: i32) -> u32
    requires { IsSpan first last }
    ensures value { result ≡ unsigned_abs (span first last) }
    ensures most { result ≤ 32768 }
{
    (last - first + 1).unsigned_abs()
}

/// The side of the partition on which all points of the rectangle lie, or None if they don't all
/// lie on one. Its four corners decide it.
#[inline]
pub fn whole_side(rect: Rect, partition: Partition) -> Option<Side>
    ensures whole { IfSome result (IsWholeSide rect partition) }
    ensures only { (s : Side) → IsWholeSide rect partition s → result ≡ Some s }
    ensures none { IsNone result ↔ ((s : Side) → ¬ IsWholeSide rect partition s) }
{
    corner_side(rect, partition)
}

// The side of all four corners, if they have one side. If all rows have the sides of the lowest, its two
// ends are enough.
#[inline]
fn corner_side(rect: Rect, partition: Partition) -> Option<Side>
    ensures corners { (s : Side) → (result ≡ Some s) ↔ AreCornersOn rect partition s }
    ensures valid { IsRect rect }
{
    let low_left = side(Point::at(rect.x0(), rect.y0()), partition);
    let low_right = side(Point::at(rect.x1(), rect.y0()), partition);
    if is_told_by_lowest(rect, partition) {
        return (low_left == low_right).then_some(low_left);
    }
    let high_left = side(Point::at(rect.x0(), rect.y1()), partition);
    let high_right = side(Point::at(rect.x1(), rect.y1()), partition);
    one_side(low_left, low_right, high_left, high_right)
}

// Each row has the sides of the lowest: it is the only one, or the partition is upright.
#[inline]
fn is_told_by_lowest(rect: Rect, partition: Partition) -> bool
    ensures { result ≡ true → (rect.y0 ≡ rect.y1) ⊎ (partition.dx ≡ pos 0) }
{
    (rect.y0() == rect.y1()) | partition.is_upright()
}

// The side that all four are. Nothing predicts which of them differ, so there is no branch.
#[inline]
fn one_side(a: Side, b: Side, c: Side, d: Side) -> Option<Side>
    ensures { (s : Side) → (result ≡ Some s) ↔ (a ≡ s) × (b ≡ s) × (c ≡ s) × (d ≡ s) }
{
    ((a == b) & (a == c) & (a == d)).then_some(a)
}
