//! What the words of a level's records name under its reading.

ghost use Rattle.std.specs.Prelude.{◌≡◌, ◌<ℤ◌, pos};
ghost use Rattle.lens_texts.specs.Place.{first_spot, index_of, spot_at};

use crate::place::Spot;
use map_level::links::named;
use map_level::{Level, number};

/// A word as an index under the level's reading.
#[inline]
pub fn index_of(level: &Level<'_>, word: i16) -> i32
    ensures value { result ≡ index_of level.now word }
    ensures below { result <ℤ pos 65536 }
{
    number(word, level.reading())
}

/// Where the vertex is that a word names.
pub fn spot_at(level: &Level<'_>, word: i16) -> Option<Spot>
    ensures { result ≡ spot_at level.now word }
{
    let vertex = named(&level.vertexes(), index_of(level, word))?;
    Some(Spot {
        x: vertex.x,
        y: vertex.y,
    })
}

/// Where the first seg of an ssector starts.
pub fn first_spot(level: &Level<'_>, t: usize) -> Option<Spot>
    ensures { result ≡ first_spot level.now t }
{
    let ssector = level.ssectors().get(t)?;
    let seg = named(&level.segs(), index_of(level, ssector.first))?;
    spot_at(level, seg.v1)
}
