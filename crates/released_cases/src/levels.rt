//! Levels: the ssectors of points, the sectors of ssectors, and what is behind segs.

ghost use Rattle.map_tree.specs.Sound.{IsSound};

use crate::fault::Fault;
use crate::lumps::{file_of, first_level};
use crate::random::Random;
use crate::tables::{Tables, place};
use le_rec::{LineDef, Seg};
use map_geo::Point;
use map_level::Level;
use map_level::links::{linedef_of, sidedef_named};
use map_tree::is_sound;
use released::{released_back, released_leaf, released_sector};
use std::alloc::{AllocError, Global};
use wad_dir::Set;

// The flag of a two-sided linedef (ML_TWOSIDED of doomdata.h).
const TWO_SIDED: i16 = 4;

/// One level: the ssectors of eight points, the sectors of all ssectors, and what is behind each seg.
pub fn add_levels(line: &mut String, alloc: Global, random: &mut Random) -> Result<(), Fault> {
    let wide = random.choice() % 2 == 0;
    let tables = Tables::new(alloc, random, wide)?;
    let file = file_of(alloc, &tables)?;
    let set = Set::one(alloc, &file)?;
    let level = first_level(&set)?;
    if !is_sound(alloc, &level)? {
        return Err(Fault::Level);
    }
    add_leaves(line, &level, random, wide)?;
    add_sectors(line, &level)?;
    add_backs(line, &level)
}

fn add_leaves(
    line: &mut String,
    level: &Level<'_>,
    random: &mut Random,
    wide: bool,
) -> Result<(), Fault>
    requires { IsSound level.now }
{
    line.push_str("leaves")?;
    for _point in 0..8 {
        let x = place(random, wide);
        let y = place(random, wide);
        let Some(point) = Point::new(i32::from(x), i32::from(y)) else {
            return Err(Fault::Level);
        };
        write!(line, " {}", released_leaf(level, point))?;
    }
    Ok(())
}

fn add_sectors(line: &mut String, level: &Level<'_>) -> Result<(), Fault> {
    line.push_str(" sectors")?;
    for t in 0..level.ssectors().len() {
        let Some(sector) = released_sector(level, t) else {
            return Err(Fault::Level);
        };
        write!(line, " {sector}")?;
    }
    Ok(())
}

fn add_backs(line: &mut String, level: &Level<'_>) -> Result<(), Fault> {
    line.push_str(" backs")?;
    let segs = level.segs();
    for i in 0..segs.len() {
        add_back(line, level, &segs.at(i))?;
    }
    Ok(())
}

// The sidedef behind a seg, and its sector; of one that isn't there the number alone.
fn add_back(line: &mut String, level: &Level<'_>, seg: &Seg) -> Result<(), Fault> {
    let Some(linedef) = linedef_of(level, seg) else {
        return Err(Fault::Level);
    };
    if !is_two_sided(&linedef) {
        line.push_str(" none")?;
        return Ok(());
    }
    let Some(back) = released_back(&linedef, seg) else {
        return Err(Fault::Level);
    };
    Ok(add_sidedef(line, level, back)?)
}

fn add_sidedef(line: &mut String, level: &Level<'_>, number: i16) -> Result<(), AllocError> {
    match sidedef_named(level, i32::from(number)) {
        Some(sidedef) => write!(line, " {number}:{}", sidedef.sector),
        None => write!(line, " {number}"),
    }
}

/// Whether the game looks for a sidedef behind a linedef.
pub fn is_two_sided(linedef: &LineDef) -> bool {
    linedef.flags & TWO_SIDED != 0
}
