//! Levels of many linedefs, made of the sample level.

use crate::packed_with;
use le_rec::{LineDef, Record, Vertex};
use std::alloc::{AllocError, Global};
use wad_dir::PackFault;

/// The vertexes from which a linedef runs and to which it does.
pub type Ends = (u16, u16);

// Two segs of the front of linedef 0.
const SEGS: [u8; 24] = [
    0, 0, 1, 0, 0, 64, 0, 0, 0, 0, 0, 0, 0, 0, 1, 0, 0, 64, 0, 0, 0, 0, 0, 0,
];

// A sidedef of sector 0 with the middle texture `A`.
const SIDEDEF: [u8; 30] = [
    0, 0, 0, 0, 45, 0, 0, 0, 0, 0, 0, 0, 45, 0, 0, 0, 0, 0, 0, 0, 65, 0, 0, 0, 0, 0, 0, 0, 0, 0,
];

// A start of player 1 in front of linedef 0.
const THING: [u8; 10] = [8, 0, 248, 255, 0, 0, 1, 0, 7, 0];

/// The sample level's file with other linedefs, each with a side in front alone, of sector 0, and with so many vertexes.
pub fn packed_with_lines(alloc: Global, lines: &[Ends], count: u16) -> Result<Vec<u8>, PackFault> {
    let Ok(linedefs) = linedefs(alloc, lines) else {
        return Err(PackFault::Memory);
    };
    let Ok(vertexes) = vertexes(alloc, count) else {
        return Err(PackFault::Memory);
    };
    packed_with(
        alloc,
        &[
            (1, &THING),
            (2, &linedefs),
            (3, &SIDEDEF),
            (4, &vertexes),
            (5, &SEGS),
        ],
    )
}

/// Linedefs round a sector, and others behind them. Round it each goes from a vertex to the next one, and the last one back to the first.
pub fn lines_round(alloc: Global, count: u16, others: &[Ends]) -> Result<Vec<Ends>, AllocError> {
    let mut lines = Vec::new(alloc);
    for i in 1..count {
        lines.push((i - 1, i))?;
    }
    lines.push((count.saturating_sub(1), 0))?;
    lines.extend_from_slice(others)?;
    Ok(lines)
}

// The records of linedefs.
fn linedefs(alloc: Global, lines: &[Ends]) -> Result<Vec<u8>, AllocError> {
    let mut lump = Vec::new(alloc);
    for (from, to) in lines {
        let linedef = LineDef {
            v1: from.cast_signed(),
            v2: to.cast_signed(),
            flags: 1,
            special: 0,
            tag: 0,
            side0: 0,
            side1: -1,
        };
        let mut bytes = [0; 14];
        linedef.write(&mut bytes);
        lump.extend_from_slice(&bytes)?;
    }
    Ok(lump)
}

// So many vertexes, each at a place of its own.
fn vertexes(alloc: Global, count: u16) -> Result<Vec<u8>, AllocError> {
    let mut lump = Vec::new(alloc);
    for i in 0..count {
        let vertex = Vertex {
            x: (i % 256).cast_signed(),
            y: (i / 256).cast_signed(),
        };
        let mut bytes = [0; 4];
        vertex.write(&mut bytes);
        lump.extend_from_slice(&bytes)?;
    }
    Ok(lump)
}
