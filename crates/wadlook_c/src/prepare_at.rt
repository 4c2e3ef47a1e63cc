//! Preparing the level whose label is an entry for single points.

ghost use Rattle.std.specs.Prelude.{◌≡◌, ◌<◌, ◌≤◌, IfErr, IfOk, drop, length, take};
ghost use Rattle.map_level.specs.Level.{Level};
ghost use Rattle.map_tree.specs.Child.{ssector_count};
ghost use Rattle.map_tree.specs.SectorList.{ListsSectors};
ghost use Rattle.wadlook_c.specs.Ends.{reading_of};
ghost use Rattle.wadlook_c.specs.Entries.{EndsAt, IsAcceptedAt, IsEntry, RefusesAcceptedAt};
ghost use Rattle.wadlook_c.specs.Status.{no_room_number};

use crate::entry::{EntryFault, entry_number_of, open_entry};
use crate::opening::{accepted, reading_of};
use crate::prepare::put_sectors;
use crate::status::{DONE, NO_ROOM};
use map_level::Reading;
use std::alloc::Global;

/// Prepares as `wadlook_prepare` does, of the level whose label is an entry. It returns 0, or else the status of a refusal. At
/// `NO_ROOM`, `count` is the number that it needs.
#[unsafe(no_mangle)]
pub extern "C" fn wadlook_prepare_at(
    alloc: Global,
    wad: &[u8],
    entry: usize,
    wide: bool,
    sectors: &mut [u16],
    count: &mut usize,
) -> u32
    ensures done { result ≡ 0 → (level : Level) × IsAcceptedAt wad.now entry (reading_of wide) level
        × ListsSectors level (take count.new sectors.new) }
    ensures inside { result ≡ 0 → count.new ≤ length sectors.old }
    ensures behind { result ≡ 0 → drop count.new sectors.new ≡ drop count.new sectors.old }
    ensures room { result ≡ no_room_number → (level : Level) × IsEntry wad.now entry (reading_of wide) level
        × (count.new ≡ ssector_count level) × (length sectors.old < count.new) }
    ensures refused { ¬ (result ≡ 0) → ¬ (result ≡ no_room_number)
        → EndsAt (RefusesAcceptedAt wad.now entry (reading_of wide)) result }
    ensures untouched { ¬ (result ≡ 0) → sectors.new ≡ sectors.old }
    ensures count_untouched { ¬ (result ≡ 0) → ¬ (result ≡ no_room_number) → count.new ≡ count.old }
{
    match prepared_at(alloc, wad, entry, reading_of(wide), sectors) {
        Ok(found) => {
            *count = found;
            if found > sectors.len() { NO_ROOM } else { DONE }
        }
        Err(fault) => entry_number_of(fault),
    }
}

// The number of ssectors. Their sectors are written if there is room for them.
fn prepared_at(
    alloc: Global,
    wad: &[u8],
    entry: usize,
    reading: Reading,
    sectors: &mut [u16],
) -> Result<usize, EntryFault>
    ensures ok { IfOk result (λ count. count ≤ length sectors.old
        → (level : Level) × IsAcceptedAt wad.now entry reading level × ListsSectors level (take count sectors.new)) }
    ensures behind { IfOk result (λ count. count ≤ length sectors.old → drop count sectors.new ≡ drop count sectors.old) }
    ensures counted { IfOk result (λ count. (level : Level) × IsEntry wad.now entry reading level
        × (count ≡ ssector_count level)) }
    ensures room { IfOk result (λ count. length sectors.old < count → sectors.new ≡ sectors.old) }
    ensures err { IfErr result (RefusesAcceptedAt wad.now entry reading) }
    ensures untouched { IfErr result (λ _. sectors.new ≡ sectors.old) }
{
    let level = open_entry(alloc, wad, entry, reading)?;
    let count = level.ssectors().len();
    if count > sectors.len() {
        return Ok(count);
    }
    accepted(alloc, &level)?;
    put_sectors(&level, &mut sectors[..count]);
    Ok(count)
}
