//! What the words of a level's records name, under the level's reading.

ghost use Rattle.std.specs.Prelude.{◌≡◌};
ghost use Rattle.std.specs.Option.{option_map};
ghost use Rattle.map_level.specs.Reading.{number_of, sidedef_under};
ghost use Rattle.map_level.specs.SectorOf.{number_named, sidedef_named};

use le_rec::SideDef;
use map_level::links::sidedef_named;
use map_level::{Level, number};

/// The sidedef that a word names, unless the word says that there is no side.
#[inline]
pub fn sidedef(level: &Level<'_>, word: i16) -> Option<SideDef>
    ensures { option_map (sidedef_under level.now.reading) result
        ≡ sidedef_named level.now (number_of level.now.reading word) }
{
    sidedef_named(level, number(word, level.reading()))
}

/// The number of the record that an index names, of `count` records.
#[inline]
pub fn number_named(index: i32, count: usize) -> Option<u32>
    ensures { result ≡ number_named count index }
{
    if index < 0 || index as usize >= count {
        return None;
    }
    Some(index as u32)
}
