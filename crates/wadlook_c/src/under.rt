//! The sector of a point of a level that may have faults.

ghost use Rattle.std.specs.Prelude.{◌≡◌, ◌<ℤ◌, pos, IfErr, IfOk, List};
ghost use Rattle.std.specs.Option.{option_map};
ghost use Rattle.map_level.specs.Level.{Level};
ghost use Rattle.map_level.specs.Links.{named, segs_of};
ghost use Rattle.map_level.specs.Reading.{seg_under};
ghost use Rattle.map_level.specs.SectorOf.{first_seg, number_named, sector_of};
ghost use Rattle.map_tree.specs.Sound.{IsSound};
ghost use Rattle.wadlook_c.specs.Ends.{reading_of};
ghost use Rattle.wadlook_c.specs.Entries.{EndsAt, IsEntry, RefusesEntry};
ghost use Rattle.wadlook_c.specs.Places.{TellsLeaf, TellsPlace};
ghost use Rattle.wadlook_c.specs.Under.{IsLinkedPlace, TellsUnder};

use crate::entry::{EntryFault, entry_number_of, open_entry};
use crate::opening::reading_of;
use crate::point::leaf_in;
use crate::points::{NOWHERE, WadlookPlace, WadlookPoint};
use crate::status::DONE;
use le_rec::Seg;
use map_geo::Point;
use map_level::links::{names_none, seg_at, sidedef_of, ssector_at};
use map_level::{Level, Reading, number};
use std::alloc::Global;

/// Writes to `place` the ssector and the sector of a point in the level whose label is an entry, which may have faults: the
/// walk down its nodes ends with `NOWHERE` where they break, or where the ssector has no sector. It returns 0, or else the
/// status of a refusal.
#[unsafe(no_mangle)]
pub extern "C" fn wadlook_under(
    alloc: Global,
    wad: &[u8],
    entry: usize,
    wide: bool,
    point: WadlookPoint,
    place: &mut WadlookPlace,
) -> u32
    ensures done { result ≡ 0 → (level : Level) × IsEntry wad.now entry (reading_of wide) level × TellsUnder level point place.new }
    ensures refused { ¬ (result ≡ 0) → EndsAt (RefusesEntry wad.now entry) result }
    ensures untouched { ¬ (result ≡ 0) → place.new ≡ place.old }
{
    match under(alloc, wad, entry, reading_of(wide), point) {
        Ok(found) => {
            *place = found;
            DONE
        }
        Err(fault) => entry_number_of(fault),
    }
}

fn under(
    alloc: Global,
    wad: &[u8],
    entry: usize,
    reading: Reading,
    asked: WadlookPoint,
) -> Result<WadlookPlace, EntryFault>
    ensures ok { IfOk result (λ place. (level : Level) × IsEntry wad.now entry reading level × TellsUnder level asked place) }
    ensures err { IfErr result (RefusesEntry wad.now entry) }
{
    let level = open_entry(alloc, wad, entry, reading)?;
    match Point::new(asked.x, asked.y) {
        Some(point) => Ok(place_in(&level, point)),
        None => Ok(NOWHERE),
    }
}

// The place of a point in range.
fn place_in(level: &Level<'_>, point: Point) -> WadlookPlace
    ensures sound { IsSound level.now → TellsLeaf level.now point result }
    ensures linked { IsLinkedPlace level.now result }
{
    let Some(ssector) = leaf_in(&level.nodes(), point) else {
        return NOWHERE;
    };
    match sector_of(level, usize::from(ssector)) {
        Some(sector) => WadlookPlace { ssector, sector },
        None => NOWHERE,
    }
}

// The sector of an ssector; None where a link on the way names nothing.
fn sector_of(level: &Level<'_>, ssector: usize) -> Option<u16>
    ensures { result ≡ sector_of level.now ssector }
{
    let seg = first_seg(level, ssector)?;
    let sidedef = sidedef_of(level, &seg)?;
    number_named(
        number(sidedef.sector, level.reading()),
        level.sectors().len(),
    )
}

// The first seg of an ssector.
fn first_seg(level: &Level<'_>, ssector: usize) -> Option<Seg>
    ensures { option_map (seg_under level.now.reading) result ≡ first_seg level.now ssector }
{
    let ssector = ssector_at(level, ssector)?;
    seg_named(level, number(ssector.first, level.reading()))
}

// The seg that an index names.
fn seg_named(level: &Level<'_>, index: i32) -> Option<Seg>
    ensures { option_map (seg_under level.now.reading) result ≡ named (segs_of level.now) index }
{
    if index < 0 {
        return None;
    }
    seg_at(level, index as usize)
}

// The number that an index names one of so many records by.
fn number_named(index: i32, count: usize) -> Option<u16>
    requires { index <ℤ pos 65536 }
    ensures { result ≡ number_named count index }
{
    if names_none(index, count) {
        return None;
    }
    Some(index as u16)
}
