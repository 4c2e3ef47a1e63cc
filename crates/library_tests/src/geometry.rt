//! Sides of points and of rectangles.

use crate::compare::check_same;
use le_rec::Node;
use map_geo::{Partition, Point, Rect, Side, side, whole_side};
use std::process::Abort;

// A node whose partition goes through (x, y) in the direction (dx, dy).
fn node(x: i16, y: i16, dx: i16, dy: i16) -> Node {
    Node {
        x,
        y,
        dx,
        dy,
        box0: [0; 4],
        box1: [0; 4],
        child0: 0x8000,
        child1: 0x8001,
    }
}

fn partition(rt: &impl Abort, x: i16, y: i16, dx: i16, dy: i16) -> Partition {
    Partition::of(&node(x, y, dx, dy)).expect(rt, "an origin in range")
}

fn point(rt: &impl Abort, x: i32, y: i32) -> Point {
    Point::new(x, y).expect(rt, "a point in range")
}

fn rect(rt: &impl Abort, x0: i32, y0: i32, x1: i32, y1: i32) -> Rect {
    Rect::new(x0, y0, x1, y1).expect(rt, "a rectangle")
}

// Compares the side of a point with what is expected.
fn check_side(rt: &impl Abort, x: i32, y: i32, line: Partition, expected: Side) {
    assert_eq!(rt;
        side(point(rt, x, y), line),
        expected,
        "{line:?} at {x} {y}"
    );
}

// A partition's direction, its side at its origin, and its side at the other points of its line.
const TIES: [(i16, i16, Side, Side); 9] = [
    (0, 1, Side::Back, Side::Back),
    (0, 0, Side::Front, Side::Front),
    (0, -1, Side::Front, Side::Front),
    (1, 0, Side::Front, Side::Front),
    (-1, 0, Side::Back, Side::Back),
    (1, 1, Side::Back, Side::Back),
    (1, -1, Side::Back, Side::Back),
    (-1, 1, Side::Front, Side::Back),
    (-1, -1, Side::Back, Side::Back),
];

// Compares the sides of three points of a line: its origin, and one on each side of it.
fn check_ties(rt: &impl Abort, dx: i16, dy: i16, at_origin: Side, elsewhere: Side) {
    let line = partition(rt, 5, -7, dx, dy);
    let (right, up) = (i32::from(dx), i32::from(dy));
    check_side(rt, 5, -7, line, at_origin);
    check_side(rt, 5 + right, up - 7, line, elsewhere);
    check_side(rt, 5 - right, -7 - up, line, elsewhere);
}

#[test]
fn ties(rt: HostRuntime) {
    for (dx, dy, at_origin, elsewhere) in TIES {
        check_ties(&rt, dx, dy, at_origin, elsewhere);
    }
}

// Whether a number is taken as each coordinate of a point, and as both of a rectangle's in each direction.
fn takes(z: i32) -> [bool; 4] {
    [
        Point::new(z, 0).is_some(),
        Point::new(0, z).is_some(),
        Rect::new(z, 0, z, 0).is_some(),
        Rect::new(0, z, 0, z).is_some(),
    ]
}

#[test]
fn ranges(rt: HostRuntime) {
    check_same(&rt, takes(-16385), [false; 4]);
    check_same(&rt, takes(-16384), [true; 4]);
    check_same(&rt, takes(16383), [true; 4]);
    check_same(&rt, takes(16384), [false; 4]);
}

// The corners are a rectangle's, or not.
fn check_corners(rt: &impl Abort, corners: (i32, i32, i32, i32), is_one: bool) {
    let (x0, y0, x1, y1) = corners;
    match Rect::new(x0, y0, x1, y1) {
        Some(r) => {
            assert!(rt; is_one);
            check_same(rt, (r.x0(), r.y0(), r.x1(), r.y1()), corners);
        }
        None => assert!(rt; !is_one),
    }
}

#[test]
fn rectangles(rt: HostRuntime) {
    check_corners(&rt, (0, 0, 0, 0), true);
    check_corners(&rt, (1, 0, 0, 0), false);
    check_corners(&rt, (0, 1, 0, 0), false);
    check_corners(&rt, (0, 0, 1023, 1023), true);
    check_corners(&rt, (0, 0, 1023, 1024), false);
    check_corners(&rt, (-16384, -16384, 16383, -16353), true);
    check_corners(&rt, (-16384, -16384, 16383, -16352), false);
}

// Compares the side of a whole rectangle with what is expected.
fn check_whole(rt: &impl Abort, place: Rect, line: Partition, expected: Option<Side>) {
    assert_eq!(rt; whole_side(place, line), expected, "{place:?} {line:?}");
}

#[test]
fn whole_sides(rt: HostRuntime) {
    let base = partition(&rt, 0, 0, 0, 64);
    let nowhere = partition(&rt, 3, 3, 0, 0);
    let diagonal = partition(&rt, 0, 0, -1, 1);
    check_whole(&rt, rect(&rt, 1, 0, 3, 2), base, Some(Side::Front));
    check_whole(&rt, rect(&rt, -3, 0, 0, 2), base, Some(Side::Back));
    check_whole(&rt, rect(&rt, -9, -9, 9, 9), nowhere, Some(Side::Front));
    check_whole(&rt, rect(&rt, 0, 0, 3, 2), base, None);
    check_whole(&rt, rect(&rt, -2, -2, 0, 0), diagonal, None);
    check_whole(&rt, rect(&rt, 0, 0, 2, 2), diagonal, Some(Side::Front));
}

// The side that each point of a rectangle has, found point by point.
fn side_of_each(rt: &impl Abort, bounds: (i32, i32, i32, i32), line: Partition) -> Option<Side> {
    let (x0, y0, x1, y1) = bounds;
    let first = side(point(rt, x0, y0), line);
    for y in y0..=y1 {
        for x in x0..=x1 {
            if side(point(rt, x, y), line) != first {
                return None;
            }
        }
    }
    Some(first)
}

// Compares the two for each rectangle within -2 and 2.
fn compare_in_grid(rt: &impl Abort, line: Partition) {
    for y0 in -2..3 {
        for x0 in -2..3 {
            for y1 in y0..3 {
                for x1 in x0..3 {
                    let place = rect(rt, x0, y0, x1, y1);
                    check_whole(rt, place, line, side_of_each(rt, (x0, y0, x1, y1), line));
                }
            }
        }
    }
}

#[test]
fn whole_sides_in_a_grid(rt: HostRuntime) {
    for dx in -2..3 {
        for dy in -2..3 {
            compare_in_grid(&rt, partition(&rt, 0, 0, dx, dy));
            compare_in_grid(&rt, partition(&rt, 1, -1, dx, dy));
        }
    }
    compare_in_grid(&rt, partition(&rt, -16384, 16383, 32767, -32768));
}
