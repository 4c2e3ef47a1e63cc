//! Points of a map.

ghost use Rattle.std.specs.Prelude.{◌≡◌, ◌↔◌, IsSome, IfSome, IsTrue};
ghost use Rattle.map_geo.specs.Point.{IsInRange, point_at};

use std::marker::Model;

const MIN_COORDINATE: i32 = -16384;

const MAX_COORDINATE: i32 = 16383;

/// A point of a map, in whole map units, with coordinates from -16384 to 16383.
#[derive(Clone, Copy, Debug, PartialEq, Eq)]
pub struct Point {
    x: i32,
    y: i32,
}

impl Model for Point {
    ghost use Rattle.map_geo.specs.Point as point;
    ghost use Rattle.map_geo.specs.Point.{IsInRange};

    ghost Value = { point.Point };

    ghost view = { λ p. record { x = p.x; y = p.y } };

    ghost invariant = { λ p. IsInRange p.x × IsInRange p.y };

    ghost inverse = { λ p. record { x = p.x; y = p.y } };
}

impl Point {
    /// The point (x, y), or None if a coordinate is outside -16384..16383.
    pub fn new(x: i32, y: i32) -> Option<Point>
        ensures some { IsSome result ↔ (IsInRange x × IsInRange y) }
        ensures value { IfSome result (λ point. point ≡ point_at x y) }
    {
        if is_in_range(x) && is_in_range(y) {
            Some(Point { x, y })
        } else {
            None
        }
    }

    /// The point (x, y), where the coordinates are known to be in range.
    #[inline]
    pub fn at(x: i32, y: i32) -> Point
        requires x_in { IsInRange x }
        requires y_in { IsInRange y }
        ensures { result ≡ point_at x y }
    {
        Point { x, y }
    }

    /// The column, in map units from -16384 to 16383.
    #[inline]
    pub fn x(self) -> i32
        ensures value { result ≡ self.x }
        ensures in_range { IsInRange result }
    {
        self.x
    }

    /// The row, in map units from -16384 to 16383.
    #[inline]
    pub fn y(self) -> i32
        ensures value { result ≡ self.y }
        ensures in_range { IsInRange result }
    {
        self.y
    }
}

// Whether R_PointOnSide of linuxdoom 1.10 takes this coordinate without wrapping.
#[inline]
pub(crate) fn is_in_range(z: i32) -> bool
    ensures { IsTrue result ↔ IsInRange z }
{
    MIN_COORDINATE <= z && z <= MAX_COORDINATE
}
