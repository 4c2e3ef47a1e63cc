//! Sides: of a point and a node, of several kinds by turns.

ghost use Rattle.std.specs.Prelude.{◌<◌};

use crate::random::Random;
use le_rec::Node;
use map_geo::{Partition, Point, Side, side};
use released::{FixedNode, released_side};
use std::alloc::AllocError;

/// A point and a node's origin and direction.
#[derive(Clone, Copy)]
struct Case {
    x: i32,
    y: i32,
    node: FixedNode,
}

const PLACES: [i32; 8] = [-16384, -16383, -1, 0, 1, 2, 16382, 16383];

const STEPS: [i32; 8] = [-32768, -32767, -1, 0, 1, 2, 32766, 32767];

/// The letters of 64 cases.
pub fn add_sides(line: &mut String, random: &mut Random) -> Result<(), AllocError> {
    for _case in 0..64 {
        let (released, defined) = letters(random);
        line.push(released)?;
        line.push(defined)?;
    }
    Ok(())
}

// The letters of the next case: the side by `released_side`, and by `side`.
fn letters(random: &mut Random) -> (char, char) {
    match random.choice() {
        0 => both(&near(random, -8, 16, -8, 16)),
        1 => both(&near(random, -16384, 32768, -32768, 65536)),
        2 => both(&extreme(random)),
        3 => both(&tie(random)),
        4 => both(&near_tie(random)),
        5 => both(&near(random, -32768, 65536, -32768, 65536)),
        6 => released_alone(&any(random)),
        _ => released_alone(&straight(random)),
    }
}

// Places and steps of so many from a least one on.
fn near(random: &mut Random, place: i32, places: u32, step: i32, steps: u32) -> Case
    requires some_places { 0 < places }
    requires some_steps { 0 < steps }
{
    let x = random.from(place, places);
    let y = random.from(place, places);
    let node_x = random.from(place, places);
    let node_y = random.from(place, places);
    let dx = random.from(step, steps);
    let dy = random.from(step, steps);
    Case {
        x,
        y,
        node: FixedNode {
            x: node_x,
            y: node_y,
            dx,
            dy,
        },
    }
}

// The least and the greatest, and those about 0.
fn extreme(random: &mut Random) -> Case {
    let x = PLACES[random.choice()];
    let y = PLACES[random.choice()];
    let node_x = PLACES[random.choice()];
    let node_y = PLACES[random.choice()];
    let dx = STEPS[random.choice()];
    let dy = STEPS[random.choice()];
    Case {
        x,
        y,
        node: FixedNode {
            x: node_x,
            y: node_y,
            dx,
            dy,
        },
    }
}

// A point on the node's line.
fn tie(random: &mut Random) -> Case {
    let node_x = random.from(-4096, 8192);
    let node_y = random.from(-4096, 8192);
    let dx = random.from(-64, 128);
    let dy = random.from(-64, 128);
    let times = random.from(-64, 128);
    Case {
        x: node_x.wrapping_add(times.wrapping_mul(dx)),
        y: node_y.wrapping_add(times.wrapping_mul(dy)),
        node: FixedNode {
            x: node_x,
            y: node_y,
            dx,
            dy,
        },
    }
}

// A point beside the node's line.
fn near_tie(random: &mut Random) -> Case {
    let mut case = tie(random);
    case.x = case.x.wrapping_add(random.from(-1, 3));
    case.y = case.y.wrapping_add(random.from(-1, 3));
    case
}

// Any numbers.
fn any(random: &mut Random) -> Case {
    let x = random.word();
    let y = random.word();
    let node_x = random.word();
    let node_y = random.word();
    let dx = random.word();
    let dy = random.word();
    Case {
        x,
        y,
        node: FixedNode {
            x: node_x,
            y: node_y,
            dx,
            dy,
        },
    }
}

// Any numbers of an upright or a level node, and often a point on its line.
fn straight(random: &mut Random) -> Case {
    let mut case = any(random);
    let choice = random.choice();
    if choice & 1 == 0 {
        case.node.dx = 0;
    } else {
        case.node.dy = 0;
    }
    if choice & 2 == 0 {
        case.x = case.node.x;
        case.y = case.node.y;
    }
    case
}

// Both sides of a case in whole units.
fn both(case: &Case) -> (char, char) {
    let Case { x, y, node } = case;
    let fixed = Case {
        x: x.wrapping_mul(65536),
        y: y.wrapping_mul(65536),
        node: FixedNode {
            x: node.x.wrapping_mul(65536),
            y: node.y.wrapping_mul(65536),
            dx: node.dx.wrapping_mul(65536),
            dy: node.dy.wrapping_mul(65536),
        },
    };
    let (released, _) = released_alone(&fixed);
    (released, defined_letter(case))
}

// The side of a case in numbers of 32 bits, as they are.
fn released_alone(case: &Case) -> (char, char) {
    let side = released_side(case.x, case.y, case.node);
    (letter(side), '-')
}

fn defined_letter(case: &Case) -> char {
    match defined(case) {
        Some(side) => letter(side),
        None => '-',
    }
}

// The side as defined, where point and origin are in range.
fn defined(case: &Case) -> Option<Side> {
    let point = Point::new(case.x, case.y)?;
    let node = node_of(&case.node)?;
    Some(side(point, Partition::of(&node)?))
}

// A node of whole units.
fn node_of(node: &FixedNode) -> Option<Node> {
    Some(Node {
        x: i16::try_from(node.x).ok()?,
        y: i16::try_from(node.y).ok()?,
        dx: i16::try_from(node.dx).ok()?,
        dy: i16::try_from(node.dy).ok()?,
        box0: [0; 4],
        box1: [0; 4],
        child0: 0,
        child1: 0,
    })
}

fn letter(side: Side) -> char {
    match side {
        Side::Front => 'F',
        Side::Back => 'B',
    }
}
