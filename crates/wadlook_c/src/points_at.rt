//! The sectors of many points of the level whose label is an entry.

ghost use Rattle.std.specs.Prelude.{◌≡◌, ◌<◌, ◌≤◌, IfErr, OnOk, drop, length};
ghost use Rattle.map_level.specs.Level.{Level};
ghost use Rattle.wadlook_c.specs.Ends.{reading_of};
ghost use Rattle.wadlook_c.specs.Entries.{EndsAt, IsAcceptedAt, RefusesAcceptedAt};
ghost use Rattle.wadlook_c.specs.Places.{TellsPlaces};
ghost use Rattle.wadlook_c.specs.Status.{no_room_number};

use crate::entry::{EntryFault, entry_number_of, open_entry};
use crate::opening::reading_of;
use crate::points::{WadlookPlace, WadlookPoint, put_places};
use crate::status::{DONE, NO_ROOM};
use look_engines::sector_tree;
use map_level::Reading;
use std::alloc::Global;

/// Writes the places of points as `wadlook_points` does, in the level whose label is an entry. It returns 0, or else the status of
/// a refusal.
#[unsafe(no_mangle)]
pub extern "C" fn wadlook_points_at(
    alloc: Global,
    wad: &[u8],
    entry: usize,
    wide: bool,
    points: &[WadlookPoint],
    out: &mut [WadlookPlace],
) -> u32
    ensures done { result ≡ 0 → (level : Level) × IsAcceptedAt wad.now entry (reading_of wide) level
        × TellsPlaces level points.now out.new }
    ensures room { result ≡ no_room_number → length out.old < length points.now }
    ensures fits { ¬ (result ≡ no_room_number) → length points.now ≤ length out.old }
    ensures refused { ¬ (result ≡ 0) → ¬ (result ≡ no_room_number)
        → EndsAt (RefusesAcceptedAt wad.now entry (reading_of wide)) result }
    ensures behind { drop (length points.now) out.new ≡ drop (length points.now) out.old }
    ensures untouched { ¬ (result ≡ 0) → out.new ≡ out.old }
{
    if out.len() < points.len() {
        return NO_ROOM;
    }
    match places_at(alloc, wad, entry, reading_of(wide), points, out) {
        Ok(()) => DONE,
        Err(fault) => entry_number_of(fault),
    }
}

fn places_at(
    alloc: Global,
    wad: &[u8],
    entry: usize,
    reading: Reading,
    points: &[WadlookPoint],
    out: &mut [WadlookPlace],
) -> Result<(), EntryFault>
    requires { length points.now ≤ length out.old }
    ensures ok { OnOk result ((level : Level) × IsAcceptedAt wad.now entry reading level
        × TellsPlaces level points.now out.new) }
    ensures err { IfErr result (RefusesAcceptedAt wad.now entry reading) }
    ensures behind { drop (length points.now) out.new ≡ drop (length points.now) out.old }
    ensures untouched { IfErr result (λ _. out.new ≡ out.old) }
{
    let level = open_entry(alloc, wad, entry, reading)?;
    let tree = sector_tree(alloc, &level)?;
    put_places(&tree, points, out);
    Ok(())
}
