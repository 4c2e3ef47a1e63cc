//! The side of a partition as linuxdoom 1.10 computes it: on numbers of 32 bits with 16 behind the point, with
//! differences that wrap and with tests of sign bits.

ghost use Rattle.std.specs.Prelude.{◌≡◌, FitsSigned};
ghost use Rattle.std.specs.Int.{w16};
ghost use Rattle.map_geo.specs.Point.{IsInRange};
ghost use Rattle.map_geo.specs.Partition.{partition_of};
ghost use Rattle.map_geo.specs.Side.{side_of};
ghost use Rattle.released.specs.PointOnSide.{fixed, fixed_node, has_sign_bit, fixed_mul, released_side};

use le_rec::Node;
use map_geo::{Point, Side};

/// A node as the game holds it once it is loaded: `node_t` of r_defs.h without its boxes and children, in fixed_t.
#[derive(Clone, Copy, Debug, PartialEq, Eq)]
pub struct FixedNode {
    pub x: i32,
    pub y: i32,
    pub dx: i32,
    pub dy: i32,
}

impl FixedNode {
    /// The node as P_LoadNodes of p_setup.c keeps it.
    pub fn of(node: &Node) -> FixedNode
        ensures { result ≡ fixed_node node.now }
    {
        FixedNode {
            x: fixed(i32::from(node.x)),
            y: fixed(i32::from(node.y)),
            dx: fixed(i32::from(node.dx)),
            dy: fixed(i32::from(node.dy)),
        }
    }
}

/// A whole number of map units as a fixed_t.
pub fn fixed(units: i32) -> i32
    requires { FitsSigned w16 units }
    ensures { result ≡ fixed units }
{
    units * 65536
}

// Whether the highest of its 32 bits is set.
fn has_sign_bit(z: i32) -> bool
    ensures { result ≡ has_sign_bit z }
{
    z.cast_unsigned() & 0x8000_0000 != 0
}

/// FixedMul of m_fixed.c.
pub fn fixed_mul(a: i32, b: i32) -> i32
    ensures { result ≡ fixed_mul a b }
{
    let product = i64::from(a) * i64::from(b);
    (((product >> 16).cast_unsigned() & 0xFFFF_FFFF) as u32).cast_signed()
}

/// R_PointOnSide of r_main.c, step by step: 0 is the front, 1 the back.
pub fn released_side(x: i32, y: i32, node: FixedNode) -> Side
    ensures { result ≡ released_side x y node }
{
    if node.dx == 0 {
        if x <= node.x {
            return if node.dy > 0 { Side::Back } else { Side::Front };
        }
        return if node.dy < 0 { Side::Back } else { Side::Front };
    }
    if node.dy == 0 {
        if y <= node.y {
            return if node.dx < 0 { Side::Back } else { Side::Front };
        }
        return if node.dx > 0 { Side::Back } else { Side::Front };
    }
    let dx = x.wrapping_sub(node.x);
    let dy = y.wrapping_sub(node.y);
    if has_sign_bit(node.dy ^ node.dx ^ dx ^ dy) {
        if has_sign_bit(node.dy ^ dx) {
            Side::Back
        } else {
            Side::Front
        }
    } else {
        let left = fixed_mul(node.dy >> 16, dx);
        let right = fixed_mul(dy, node.dx >> 16);
        if right < left {
            Side::Front
        } else {
            Side::Back
        }
    }
}

/// The side that the released game gives for a point and a node in whole units: the side as defined.
pub fn released_side_at(point: Point, node: &Node) -> Side
    requires x_in { IsInRange node.now.x }
    requires y_in { IsInRange node.now.y }
    ensures released { result ≡ released_side (fixed point.x) (fixed point.y) (fixed_node node.now) }
    ensures defined { result ≡ side_of (partition_of node.now) point }
{
    released_side(fixed(point.x()), fixed(point.y()), FixedNode::of(node))
}
