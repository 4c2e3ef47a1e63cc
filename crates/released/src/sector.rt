//! The sector of an ssector as linuxdoom 1.10 finds it.

ghost use Rattle.std.specs.Prelude.{◌≡◌, length};
ghost use Rattle.released.specs.GroupLines.{item, sidenum, sector_place, released_seg, released_sidedef, released_sector};
ghost use Rattle.released.specs.LoadLinks.{back_sidenum};

use le_rec::{LineDef, Record, Seg, SideDef, Table};
use map_level::Level;

/// P_GroupLines of p_setup.c, as far as it looks up the sector of an ssector: the sector's number, or None where the game
/// reads before an array or past it.
pub fn released_sector(level: &Level<'_>, t: usize) -> Option<usize>
    ensures { result ≡ released_sector level.now t }
{
    let seg = seg_of(level, t)?;
    let sidedef = sidedef_of(level, &seg)?;
    sector_place(level.sectors().len(), sidedef.sector)
}

// The seg of an ssector at its firstline.
fn seg_of(level: &Level<'_>, t: usize) -> Option<Seg>
    ensures { result ≡ released_seg level.now t }
{
    let ssector = level.ssectors().get(t)?;
    item(&level.segs(), ssector.first)
}

// The sidedef of a seg.
fn sidedef_of(level: &Level<'_>, seg: &Seg) -> Option<SideDef>
    ensures { result ≡ released_sidedef level.now seg.now }
{
    let linedef = item(&level.linedefs(), seg.linedef)?;
    let side = sidenum(&linedef, seg.side)?;
    item(&level.sidedefs(), side)
}

// The record at an index of an array, or None where there is none.
fn item<R: Record>(records: &Table<'_, R>, index: i16) -> Option<R>
    ensures { result ≡ item records.now.records index }
{
    if index < 0 {
        return None;
    }
    records.get(index as usize)
}

// The number that a linedef has at an index, of two.
fn sidenum(linedef: &LineDef, side: i16) -> Option<i16>
    ensures { result ≡ sidenum linedef.now side }
{
    match side {
        0 => Some(linedef.side0),
        1 => Some(linedef.side1),
        _ => None,
    }
}

/// The index of the sidedef behind a seg, as P_LoadSegs of p_setup.c follows it for a two-sided linedef, also if it is -1.
/// None if the linedef has no number there.
pub fn released_back(linedef: &LineDef, seg: &Seg) -> Option<i16>
    ensures { result ≡ back_sidenum linedef.now seg.now.side }
{
    sidenum(linedef, seg.side ^ 1)
}

// The place of a sector among so many, or None where there are not so many.
fn sector_place(count: usize, sector: i16) -> Option<usize>
    ensures { result ≡ sector_place count sector }
{
    if sector < 0 || sector as usize >= count {
        return None;
    }
    Some(sector as usize)
}
