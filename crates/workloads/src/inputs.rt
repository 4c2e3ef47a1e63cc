//! Inputs that random numbers make.

ghost use Rattle.std.specs.Prelude.{◌≡◌, ◌<◌, ◌≤◌, [], length};

use crate::random::Random;
use line_io::TextLine;
use std::alloc::{AllocError, Global};

/// So many lines, each a point of the middle of the map.
pub fn point_lines(alloc: Global, random: &mut Random, count: u32) -> Result<Vec<u8>, AllocError> {
    let mut text = Vec::new(alloc);
    for _line in 0..count {
        let mut line = TextLine::new();
        line.prepend_bytes(b"\n");
        line.prepend_integer(coordinate(random, 2048));
        line.prepend_bytes(b" ");
        line.prepend_integer(coordinate(random, 2048));
        text.extend_from_slice(line.as_bytes())?;
    }
    Ok(text)
}

/// So many lines, each a square of the middle of the map, of 32 to 1023 units.
pub fn square_lines(alloc: Global, random: &mut Random, count: u32) -> Result<Vec<u8>, AllocError> {
    let mut text = Vec::new(alloc);
    for _line in 0..count {
        let x = coordinate(random, 2048);
        let y = coordinate(random, 2048);
        let side = i64::from(31 + random.below(992));
        let mut line = TextLine::new();
        line.prepend_bytes(b"\n");
        line.prepend_integer(y.wrapping_add(side));
        line.prepend_bytes(b" ");
        line.prepend_integer(x.wrapping_add(side));
        line.prepend_bytes(b" ");
        line.prepend_integer(y);
        line.prepend_bytes(b" ");
        line.prepend_integer(x);
        text.extend_from_slice(line.as_bytes())?;
    }
    Ok(text)
}

// A coordinate that is less than so far from 0.
fn coordinate(random: &mut Random, bound: u32) -> i64
    requires some { 0 < bound }
    requires few { bound ≤ 32768 }
{
    i64::from(random.below(2 * bound)) - i64::from(bound)
}

/// A demo of so many tics, of version 109 and of one to four players who mostly run on as before.
pub fn demo(alloc: Global, random: &mut Random, tics: u32) -> Result<Vec<u8>, AllocError> {
    let players = 1 + random.below(4);
    let mut bytes = Vec::new(alloc);
    bytes.extend_from_slice(&[109, 3, 1, 2, 0, 0, 0, 0, 0])?;
    for seat in 0..4 {
        bytes.push(u8::from(seat < players))?;
    }
    let mut forward = 50;
    for _command in 0..tics {
        let drawn = random.next().to_le_bytes();
        if drawn[0] < 16 {
            forward = drawn[1] % 101;
        }
        let strafe = if drawn[2] < 64 {
            232 + drawn[3] % 24
        } else {
            0
        };
        let turn = drawn[4] % 16;
        let buttons = if drawn[5] < 24 { drawn[6] % 4 } else { 0 };
        bytes.extend_from_slice(&[forward, strafe, turn, buttons])?;
    }
    bytes.push(0x80)?;
    Ok(bytes)
}
