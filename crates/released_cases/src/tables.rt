//! The tables of small levels.

ghost use Rattle.std.specs.Prelude.{◌<◌, ◌≤◌};

use crate::random::Random;
use le_rec::{LineDef, Node, SSector, Seg, SideDef};
use map_tree::NF_SUBSECTOR;
use std::alloc::{AllocError, Global};

/// Of most records there are so many, of ssectors at most.
pub const DOZEN: usize = 12;

// In place of an index of a sidedef.
const NO_SIDE: i16 = -1;

/// The tables of a level with a dozen vertexes, linedefs, sidedefs, segs and sectors, of which the vertexes and the sectors
/// need no records here.
#[derive(Drop)]
pub struct Tables {
    pub sidedefs: [SideDef; DOZEN],
    pub linedefs: [LineDef; DOZEN],
    pub segs: [Seg; DOZEN],
    pub ssectors: Vec<SSector>,
    pub nodes: Vec<Node>,
}

impl Tables {
    /// Tables whose links hold. The nodes are a tree over the ssectors, with coordinates all over the range or about 0.
    pub fn new(alloc: Global, random: &mut Random, wide: bool) -> Result<Tables, AllocError> {
        let mut sidedefs = [sidedef_of(0); DOZEN];
        for sidedef in sidedefs.iter_mut() {
            *sidedef = sidedef_of(any_index(random));
        }
        let mut linedefs = [linedef_of([0, 0], 0, [0, 0]); DOZEN];
        for linedef in linedefs.iter_mut() {
            *linedef = any_linedef(random);
        }
        let mut segs = [seg_of([0, 0], 0, 0); DOZEN];
        for seg in segs.iter_mut() {
            *seg = any_seg(random, &linedefs);
        }
        let count = 1 + random.below(DOZEN) as u16;
        let mut ssectors = Vec::new(alloc);
        for _t in 0..count {
            ssectors.push(any_ssector(random))?;
        }
        let nodes = joined(alloc, random, count, wide)?;
        Ok(Tables {
            sidedefs,
            linedefs,
            segs,
            ssectors,
            nodes,
        })
    }

    /// Puts another number, often past its table, into one record.
    pub fn damage(&mut self, random: &mut Random) {
        let i = random.below(DOZEN);
        match random.below(DOZEN) {
            0 => self.linedefs[i].v1 = around(random),
            1 => self.linedefs[i].v2 = around(random),
            2 => self.linedefs[i].side0 = around(random),
            3 => self.linedefs[i].side1 = around(random),
            4 => self.sidedefs[i].sector = around(random),
            5 => self.segs[i].v1 = around(random),
            6 => self.segs[i].v2 = around(random),
            7 => self.segs[i].linedef = around(random),
            8 => self.segs[i].side = random.near(-2, 6),
            9 => self.damage_ssector(random, i, true),
            10 => self.damage_ssector(random, i, false),
            _ => {}
        }
    }

    // The same for an ssector's first seg, or for its number of segs.
    fn damage_ssector(&mut self, random: &mut Random, i: usize, first: bool) {
        let count = self.ssectors.len();
        if count == 0 {
            return;
        }
        let ssector = &mut self.ssectors[i % count];
        if first {
            ssector.first = around(random);
        } else {
            ssector.count = around(random);
        }
    }
}

// An index of a dozen, or one close by.
fn around(random: &mut Random) -> i16 {
    random.near(-2, 16)
}

// ---- Records --------------------------------------------------------------------------------------------------------

fn sidedef_of(sector: i16) -> SideDef {
    SideDef {
        xoff: 0,
        yoff: 0,
        top: [0; 8],
        bottom: [0; 8],
        middle: [0; 8],
        sector,
    }
}

fn linedef_of([v1, v2]: [i16; 2], flags: i16, [side0, side1]: [i16; 2]) -> LineDef {
    LineDef {
        v1,
        v2,
        flags,
        special: 0,
        tag: 0,
        side0,
        side1,
    }
}

fn seg_of([v1, v2]: [i16; 2], linedef: i16, side: i16) -> Seg {
    Seg {
        v1,
        v2,
        angle: 0,
        linedef,
        side,
        offset: 0,
    }
}

// ---- Records of random numbers --------------------------------------------------------------------------------------

// An index of a dozen.
fn any_index(random: &mut Random) -> i16 {
    random.below(DOZEN) as i16
}

fn two_indexes(random: &mut Random) -> [i16; 2] {
    let first = any_index(random);
    let second = any_index(random);
    [first, second]
}

// A linedef with two sides, at times with one.
fn any_linedef(random: &mut Random) -> LineDef {
    let vertexes = two_indexes(random);
    let flags = random.half();
    let mut sides = two_indexes(random);
    if random.choice() == 0 {
        sides[random.below(2)] = NO_SIDE;
    }
    linedef_of(vertexes, flags, sides)
}

// A seg at a side that its linedef has.
fn any_seg(random: &mut Random, linedefs: &[LineDef; DOZEN]) -> Seg {
    let vertexes = two_indexes(random);
    let number = random.below(DOZEN);
    let drawn = random.near(0, 2);
    let linedef = &linedefs[number];
    let side = if linedef.side0 == NO_SIDE {
        1
    } else if linedef.side1 == NO_SIDE {
        0
    } else {
        drawn
    };
    seg_of(vertexes, number as i16, side)
}

// An ssector of segs that are there.
fn any_ssector(random: &mut Random) -> SSector {
    let first = random.below(DOZEN);
    let count = 1 + random.below(DOZEN - first);
    SSector {
        count: count as i16,
        first: first as i16,
    }
}

/// A coordinate all over the range or about 0.
pub fn place(random: &mut Random, wide: bool) -> i16 {
    if wide {
        random.near(-16384, 32768)
    } else {
        random.near(-16, 32)
    }
}

fn step(random: &mut Random, wide: bool) -> i16 {
    if wide {
        random.half()
    } else {
        random.near(-4, 8)
    }
}

// ---- Trees ----------------------------------------------------------------------------------------------------------

// Nodes over so many ssectors: each joins two of what isn't joined yet, so the last is the root.
fn joined(
    alloc: Global,
    random: &mut Random,
    ssectors: u16,
    wide: bool,
) -> Result<Vec<Node>, AllocError>
    requires some { 0 < ssectors }
    requires few { ssectors ≤ 12 }
{
    let mut words = Vec::new(alloc);
    for t in 0..ssectors {
        words.push(NF_SUBSECTOR + t)?;
    }
    let mut nodes = Vec::new(alloc);
    for n in 0..ssectors - 1 {
        nodes.push(any_node(random, &mut words, wide))?;
        words.push(n)?;
    }
    Ok(nodes)
}

// A node over two of the words, which it takes.
fn any_node(random: &mut Random, words: &mut Vec<u16>, wide: bool) -> Node {
    let x = place(random, wide);
    let y = place(random, wide);
    let dx = step(random, wide);
    let dy = step(random, wide);
    let child0 = take(random, words);
    let child1 = take(random, words);
    Node {
        x,
        y,
        dx,
        dy,
        box0: [0; 4],
        box1: [0; 4],
        child0,
        child1,
    }
}

// Takes one of the words, for which the last comes in.
fn take(random: &mut Random, words: &mut Vec<u16>) -> u16 {
    if words.is_empty() {
        return 0;
    }
    let i = random.below(words.len());
    words.swap_remove(i)
}
