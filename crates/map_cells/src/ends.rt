//! Where the linedefs and segs of a level start and end, and the linedefs along which segs run.

ghost use Rattle.std.specs.Prelude.{◌≡◌};
ghost use Rattle.map_level.specs.Links.{named};
ghost use Rattle.map_level.specs.Reading.{number_of};

use le_rec::{LineDef, Vertex};
use map_level::{Level, number};
use std::alloc::Allocator;

/// The two vertexes of a linedef or seg.
#[derive(Clone, Copy, Debug, PartialEq, Eq)]
pub struct Ends {
    pub from: Vertex,
    pub to: Vertex,
}

ghost use Rattle.map_cells.specs.Ends.{ListsEnds, along, ends_named, line_ends, linedef_ends, seg_ends};

/// The ends of the linedef of a number; None where there is no such linedef or one of its vertexes isn't there.
#[inline]
pub fn linedef_ends(level: &Level<'_>, i: usize) -> Option<Ends>
    ensures { result ≡ linedef_ends level.now i }
{
    let linedef = level.linedefs().get(i)?;
    ends_named(level, &linedef.v1, &linedef.v2)
}

/// The ends of the seg of a number; None where there is no such seg or one of its vertexes isn't there.
#[inline(always)]
pub fn seg_ends(level: &Level<'_>, i: usize) -> Option<Ends>
    ensures { result ≡ seg_ends level.now i }
{
    let seg = level.segs().get(i)?;
    ends_named(level, &seg.v1, &seg.v2)
}

/// The ends of the linedef along which the seg of a number runs, in the direction of the seg: exchanged where the seg's side
/// is 1. None where there is no such seg or linedef, or one of the vertexes isn't there.
///
/// Builders round the ends of segs, and those of linedefs stand in the file as they were drawn.
#[inline(always)]
pub fn line_ends(level: &Level<'_>, i: usize) -> Option<Ends>
    ensures { result ≡ line_ends level.now i }
{
    let seg = level.segs().get(i)?;
    let linedef = linedef_named(level, &seg.linedef)?;
    let ends = ends_named(level, &linedef.v1, &linedef.v2)?;
    Some(along(&seg.side, ends))
}

// The ends of a linedef in the direction of a seg at that side of it.
#[inline(always)]
fn along(side: &i16, ends: Ends) -> Ends
    ensures { result ≡ along side.now ends }
{
    if *side == 1 {
        Ends {
            from: ends.to,
            to: ends.from,
        }
    } else {
        ends
    }
}

/// How many segs an ssector can name: its first one by 16 bits, and so many from there on by 16 others.
const NAMED: usize = 131_070;

/// The ends of the linedefs of all segs that an ssector can name, if they are at most `most` and there is memory for them: ten
/// bytes a seg.
pub fn listed_ends<A: Allocator>(alloc: A, level: &Level<'_>, most: usize) -> Vec<Option<Ends>, A>
    ensures { ListsEnds level.now result.items }
{
    let count = level.segs().len().min(NAMED);
    let mut list = Vec::new(alloc);
    if count > most || list.reserve_exact(count).is_err() {
        return list;
    }
    for i in 0..count {
        if list.push(line_ends(level, i)).is_err() {
            return list;
        }
    }
    list
}

// The vertexes that two words name.
#[inline(always)]
fn ends_named(level: &Level<'_>, v1: &i16, v2: &i16) -> Option<Ends>
    ensures { result ≡ ends_named level.now v1.now v2.now }
{
    let from = vertex_named(level, v1)?;
    let to = vertex_named(level, v2)?;
    Some(Ends { from, to })
}

// The linedef that a word names.
#[inline(always)]
fn linedef_named(level: &Level<'_>, word: &i16) -> Option<LineDef>
    ensures { result ≡ named level.now.linedefs.records (number_of level.now.reading word.now) }
{
    let index = number(*word, level.reading());
    if index < 0 {
        return None;
    }
    level.linedefs().get(index as usize)
}

// The vertex that a word names.
#[inline(always)]
fn vertex_named(level: &Level<'_>, word: &i16) -> Option<Vertex>
    ensures { result ≡ named level.now.vertexes.records (number_of level.now.reading word.now) }
{
    let index = number(*word, level.reading());
    if index < 0 {
        return None;
    }
    level.vertexes().get(index as usize)
}
