//! The records of a level, and what their indexes name under its reading.

ghost use Rattle.std.specs.Prelude.{◌≡◌, ◌↔◌, length, IsTrue};
ghost use Rattle.std.specs.Option.{option_map};
ghost use Rattle.std.specs.List.{slice_get};
ghost use Rattle.map_level.specs.Reading.{number_of, linedef_under, sidedef_under};
ghost use Rattle.map_level.specs.Reading.{seg_under, ssector_under};
ghost use Rattle.map_level.specs.Links.{linedefs_of, sidedefs_of, vertexes_of, segs_of};
ghost use Rattle.map_level.specs.Links.{ssectors_of, named, Names, no_side, linedef_of, side_at};
ghost use Rattle.map_level.specs.Links.{side_of};
ghost use Rattle.map_level.specs.SectorOf.{sidedef_named, sidedef_of};

use crate::level::Level;
use crate::reading::{Reading, number};
use le_rec::{LineDef, Record, SSector, Seg, SideDef, Table, Vertex};

/// The linedef of a number.
#[inline]
pub fn linedef_at(level: &Level<'_>, i: usize) -> Option<LineDef>
    ensures { option_map (linedef_under level.now.reading) result
        ≡ slice_get (linedefs_of level.now) i }
{
    level.linedefs().get(i)
}

/// The sidedef of a number.
#[inline]
pub fn sidedef_at(level: &Level<'_>, i: usize) -> Option<SideDef>
    ensures { option_map (sidedef_under level.now.reading) result
        ≡ slice_get (sidedefs_of level.now) i }
{
    level.sidedefs().get(i)
}

/// The seg of a number.
#[inline]
pub fn seg_at(level: &Level<'_>, i: usize) -> Option<Seg>
    ensures { option_map (seg_under level.now.reading) result ≡ slice_get (segs_of level.now) i }
{
    level.segs().get(i)
}

/// The ssector of a number.
#[inline]
pub fn ssector_at(level: &Level<'_>, i: usize) -> Option<SSector>
    ensures { option_map (ssector_under level.now.reading) result
        ≡ slice_get (ssectors_of level.now) i }
{
    level.ssectors().get(i)
}

/// How many linedefs there are.
#[inline]
pub fn linedef_count(level: &Level<'_>) -> usize
    ensures { result ≡ length (linedefs_of level.now) }
{
    level.linedefs().len()
}

/// How many sidedefs there are.
#[inline]
pub fn sidedef_count(level: &Level<'_>) -> usize
    ensures { result ≡ length (sidedefs_of level.now) }
{
    level.sidedefs().len()
}

/// How many segs there are.
#[inline]
pub fn seg_count(level: &Level<'_>) -> usize
    ensures { result ≡ length (segs_of level.now) }
{
    level.segs().len()
}

/// How many ssectors there are.
#[inline]
pub fn ssector_count(level: &Level<'_>) -> usize
    ensures { result ≡ length (ssectors_of level.now) }
{
    level.ssectors().len()
}

/// Whether an index names none of `count` records.
#[inline]
pub fn names_none(index: i32, count: usize) -> bool
    ensures { IsTrue result ↔ (¬ Names count index) }
{
    index < 0 || index as usize >= count
}

/// The index that says that there is no side.
#[inline]
pub fn no_side(reading: Reading) -> i32
    ensures { result ≡ no_side reading }
{
    match reading {
        Reading::Signed => -1,
        Reading::Wide => 65535,
    }
}

/// Whether the word of a side says that there is none.
#[inline]
pub fn is_no_side(level: &Level<'_>, word: i16) -> bool
    ensures { IsTrue result ↔ (number_of level.now.reading word ≡ no_side level.now.reading) }
{
    number(word, level.reading()) == no_side(level.reading())
}

/// The record that an index names.
#[inline]
pub fn named<R: Record>(table: &Table<'_, R>, index: i32) -> Option<R>
    ensures { result ≡ named table.now.records index }
{
    if index < 0 {
        return None;
    }
    table.get(index as usize)
}

/// The sidedef that an index names, unless the index says that there is no side.
#[inline]
pub fn sidedef_named(level: &Level<'_>, side: i32) -> Option<SideDef>
    ensures { option_map (sidedef_under level.now.reading) result ≡ sidedef_named level.now side }
{
    if side < 0 || side == no_side(level.reading()) {
        return None;
    }
    sidedef_at(level, side as usize)
}

/// The vertex that a word names.
#[inline]
pub fn vertex(level: &Level<'_>, word: i16) -> Option<Vertex>
    ensures { result ≡ named (vertexes_of level.now) (number_of level.now.reading word) }
{
    named(&level.vertexes(), number(word, level.reading()))
}

/// The linedef of a seg.
#[inline]
pub fn linedef_of(level: &Level<'_>, seg: &Seg) -> Option<LineDef>
    ensures { option_map (linedef_under level.now.reading) result
        ≡ linedef_of level.now (seg_under level.now.reading seg.now) }
{
    let index = number(seg.linedef, level.reading());
    if index < 0 {
        return None;
    }
    linedef_at(level, index as usize)
}

/// The index that a linedef has at a side number, which is 0 or 1.
#[inline]
pub fn side_at(linedef: &LineDef, reading: Reading, side: i16) -> Option<i32>
    ensures { result ≡ side_at (linedef_under reading linedef.now) side }
{
    match side {
        0 => Some(number(linedef.side0, reading)),
        1 => Some(number(linedef.side1, reading)),
        _ => None,
    }
}

/// The index of a seg's sidedef, where its linedef is there and its side number is 0 or 1.
#[inline]
pub fn side_of(level: &Level<'_>, seg: &Seg) -> Option<i32>
    ensures { result ≡ side_of level.now (seg_under level.now.reading seg.now) }
{
    let linedef = linedef_of(level, seg)?;
    side_at(&linedef, level.reading(), seg.side)
}

/// The sidedef of a seg.
#[inline]
pub fn sidedef_of(level: &Level<'_>, seg: &Seg) -> Option<SideDef>
    ensures { option_map (sidedef_under level.now.reading) result
        ≡ sidedef_of level.now (seg_under level.now.reading seg.now) }
{
    let side = side_of(level, seg)?;
    sidedef_named(level, side)
}
