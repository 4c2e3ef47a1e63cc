//! Blocks: of points, as the game computes them and as they are defined.

ghost use Rattle.std.specs.Prelude.{◌≡◌};
ghost use Rattle.released.specs.ThingPosition.{released_block};

use crate::random::Random;
use map_geo::Point;
use map_level::Reading;
use map_tables::BlockMap;
use released::fixed;
use std::alloc::AllocError;

// Along one axis: the origin, the number of blocks, and a coordinate.
#[derive(Clone, Copy)]
struct Axis {
    origin: i16,
    blocks: i16,
    z: i16,
}

/// The blocks of eight points.
pub fn add_blocks(line: &mut String, random: &mut Random) -> Result<(), AllocError> {
    line.push_str("blocks")?;
    for _case in 0..8 {
        let chosen = random.choice();
        let x = any_axis(random, chosen);
        let y = any_axis(random, chosen);
        add_block(line, &x, &y)?;
    }
    Ok(())
}

// By turns any of 16 bits, far apart, nearby, and about the edge of a block.
fn any_axis(random: &mut Random, chosen: usize) -> Axis {
    let origin = if chosen < 3 {
        random.half()
    } else {
        random.near(-512, 1024)
    };
    let blocks = match chosen {
        0 => random.half(),
        1 | 2 => random.near(-2, 600),
        _ => random.near(-2, 40),
    };
    let z = match chosen {
        0 => random.half(),
        1 | 2 => random.near(-16384, 32768),
        3..=5 => origin.wrapping_add(random.near(-256, 2048)),
        _ => {
            let edge = random.near(-2, 16).wrapping_mul(128);
            origin.wrapping_add(edge).wrapping_add(random.near(-1, 3))
        }
    };
    Axis { origin, blocks, z }
}

// The block of the game, and the one that is defined, if the point is in range and there is one.
fn add_block(line: &mut String, x: &Axis, y: &Axis) -> Result<(), AllocError> {
    let column = released_block(x.origin, x.z);
    let row = released_block(y.origin, y.z);
    write!(line, " {column}/{row}")?;
    let Some(point) = Point::new(i32::from(x.z), i32::from(y.z)) else {
        return line.push_str("=outside");
    };
    match defined_block(x, y, point) {
        Some((bx, by)) => write!(line, "={bx}/{by}"),
        None => line.push_str("=none"),
    }
}

// The column or the row of a block, as `P_SetThingPosition` of p_maputl.c computes it.
fn released_block(origin: i16, z: i16) -> i32
    ensures { result ≡ released_block origin z }
{
    fixed(i32::from(z)).wrapping_sub(fixed(i32::from(origin))) >> 23
}

// The block by the head of a BLOCKMAP.
fn defined_block(x: &Axis, y: &Axis, point: Point) -> Option<(u16, u16)> {
    let [x0, x1] = x.origin.to_le_bytes();
    let [y0, y1] = y.origin.to_le_bytes();
    let [w0, w1] = x.blocks.to_le_bytes();
    let [h0, h1] = y.blocks.to_le_bytes();
    let head = [x0, x1, y0, y1, w0, w1, h0, h1];
    BlockMap::of(&head, Reading::Signed)?.block_of(point)
}
