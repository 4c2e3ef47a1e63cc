//! The sectors on both sides of a linedef.

ghost use Rattle.std.specs.Prelude.{◌≡◌, ◌<◌, ◌<ℤ◌, ◌^◌, Some, length, pos, IfSome};
ghost use Rattle.std.specs.List.{slice_get};
ghost use Rattle.map_level.specs.Links.{linedefs_of, sectors_of};
ghost use Rattle.map_level.specs.Reading.{linedef_under, number_of};
ghost use Rattle.map_level.specs.SectorOf.{number_named};
ghost use Rattle.game_warnings.specs.Sides.{across, floor_at, is_of, has_two_sides, is_sector, sector_at, sides_in, sides_of};

use le_rec::LineDef;
use map_level::links::{names_none, sidedef_named};
use map_level::{Level, number};

// The flag of a linedef that has two sides.
const TWO_SIDED: i16 = 4;

/// The sectors of a linedef, where they are there, and whether its flag says that it has two.
#[derive(Clone, Copy)]
pub struct Sides {
    pub front: Option<u32>,
    pub back: Option<u32>,
    pub is_two_sided: bool,
}

/// The sides of the linedef of a number.
pub fn sides_at(level: &Level<'_>, i: u32) -> Sides
    requires { i < length level.now.linedefs.records }
    ensures at { slice_get (sides_in level.now) i ≡ Some result }
    ensures few { i < 2 ^ 31 }
    ensures front { IfSome result.front (λ s. s < length (sectors_of level.now)) }
    ensures back { IfSome result.back (λ s. s < length (sectors_of level.now)) }
{
    sides_of(level, &level.linedefs().at(i as usize))
}

/// The sides of a linedef.
pub fn sides_of(level: &Level<'_>, linedef: &LineDef) -> Sides
    ensures is { result ≡ sides_of level.now (linedef_under level.now.reading linedef.now) }
    ensures front { IfSome result.front (λ s. s < length (sectors_of level.now)) }
    ensures back { IfSome result.back (λ s. s < length (sectors_of level.now)) }
{
    Sides {
        front: sector_at(level, linedef.side0),
        back: sector_at(level, linedef.side1),
        is_two_sided: has_two_sides(linedef),
    }
}

fn has_two_sides(linedef: &LineDef) -> bool
    ensures { result ≡ has_two_sides linedef.now }
{
    linedef.flags & TWO_SIDED != 0
}

// The sector of the sidedef that a word names.
fn sector_at(level: &Level<'_>, word: i16) -> Option<u32>
    ensures is { result ≡ sector_at level.now (number_of level.now.reading word) }
    ensures within { IfSome result (λ s. s < length (sectors_of level.now)) }
{
    let sidedef = sidedef_named(level, number(word, level.reading()))?;
    number_named(
        number(sidedef.sector, level.reading()),
        level.sectors().len(),
    )
}

// The number of the record that an index names, of `count` records.
fn number_named(index: i32, count: usize) -> Option<u32>
    requires { index <ℤ pos 65536 }
    ensures is { result ≡ number_named count index }
    ensures within { IfSome result (λ n. n < count) }
{
    if names_none(index, count) {
        return None;
    }
    Some(index as u32)
}

/// Whether a sector is there, and is sector `s`.
#[inline]
pub fn is_sector(sector: Option<u32>, s: u32) -> bool
    ensures { result ≡ is_sector sector s }
{
    match sector {
        Some(n) => n == s,
        None => false,
    }
}

impl Sides {
    ghost use Rattle.std.specs.Prelude.{◌≡◌};
    ghost use Rattle.game_warnings.specs.Sides.{across, is_of};

    /// Whether the linedef is one of a sector.
    #[inline]
    pub fn are_of(self, s: u32) -> bool
        ensures { result ≡ is_of s self }
    {
        is_sector(self.front, s) || is_sector(self.back, s)
    }

    /// The sector across the linedef from one of its sectors.
    #[inline]
    pub fn across(self, s: u32) -> Option<u32>
        ensures { result ≡ across s self }
    {
        if is_sector(self.front, s) {
            return self.back;
        }
        self.front
    }
}

/// The height of a sector's floor; 0 where there is no such sector.
#[inline]
pub fn floor_at(level: &Level<'_>, s: u32) -> i16
    ensures { result ≡ floor_at level.now s }
{
    match level.sectors().get(s as usize) {
        Some(sector) => sector.floor,
        None => 0,
    }
}
