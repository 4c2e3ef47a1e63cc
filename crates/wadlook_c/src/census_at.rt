//! How much of a rectangle is in which sector of the level whose label is an entry.

ghost use Rattle.std.specs.Prelude.{◌≡◌, IfErr, IfOk, drop};
ghost use Rattle.map_geo.specs.Rect.{IsRect, rect_at};
ghost use Rattle.map_level.specs.Level.{Level};
ghost use Rattle.wadlook_c.specs.Counts.{TellsCensus};
ghost use Rattle.wadlook_c.specs.Ends.{reading_of};
ghost use Rattle.wadlook_c.specs.Entries.{EndsAt, IsAcceptedAt, RefusesAcceptedAt};
ghost use Rattle.wadlook_c.specs.Status.{no_rect_number};

use crate::census::{WadlookCount, WadlookRect, areas_of, put_counts};
use crate::entry::{EntryFault, entry_number_of, open_entry};
use crate::opening::reading_of;
use crate::status::{DONE, NO_RECT};
use look_engines::{RunFault, sector_tree};
use map_geo::Rect;
use map_level::Reading;
use std::alloc::Global;

/// Counts as `wadlook_census` does, in the level whose label is an entry. It returns 0, or else the status of a refusal.
#[unsafe(no_mangle)]
pub extern "C" fn wadlook_census_at(
    alloc: Global,
    wad: &[u8],
    entry: usize,
    wide: bool,
    rect: &WadlookRect,
    out: &mut [WadlookCount],
    count: &mut usize,
) -> u32
    ensures done { result ≡ 0 → (level : Level) × IsAcceptedAt wad.now entry (reading_of wide) level
        × TellsCensus level (rect_at rect.now.x0 rect.now.y0 rect.now.x1 rect.now.y1) out.new count.new }
    ensures behind { result ≡ 0 → drop count.new out.new ≡ drop count.new out.old }
    ensures no_rect { result ≡ no_rect_number → ¬ IsRect (rect_at rect.now.x0 rect.now.y0 rect.now.x1 rect.now.y1) }
    ensures rect { ¬ (result ≡ no_rect_number) → IsRect (rect_at rect.now.x0 rect.now.y0 rect.now.x1 rect.now.y1) }
    ensures refused { ¬ (result ≡ 0) → ¬ (result ≡ no_rect_number)
        → EndsAt (RefusesAcceptedAt wad.now entry (reading_of wide)) result }
    ensures untouched { ¬ (result ≡ 0) → out.new ≡ out.old }
    ensures count_untouched { ¬ (result ≡ 0) → count.new ≡ count.old }
{
    let Some(asked) = Rect::new(rect.x0, rect.y0, rect.x1, rect.y1) else {
        return NO_RECT;
    };
    match counted_at(alloc, wad, entry, reading_of(wide), asked, out) {
        Ok(found) => {
            *count = found;
            DONE
        }
        Err(fault) => entry_number_of(fault),
    }
}

fn counted_at(
    alloc: Global,
    wad: &[u8],
    entry: usize,
    reading: Reading,
    rect: Rect,
    out: &mut [WadlookCount],
) -> Result<usize, EntryFault>
    ensures ok { IfOk result (λ count. (level : Level) × IsAcceptedAt wad.now entry reading level
        × TellsCensus level rect out.new count) }
    ensures behind { IfOk result (λ count. drop count out.new ≡ drop count out.old) }
    ensures err { IfErr result (RefusesAcceptedAt wad.now entry reading) }
    ensures untouched { IfErr result (λ _. out.new ≡ out.old) }
{
    let level = open_entry(alloc, wad, entry, reading)?;
    let tree = sector_tree(alloc, &level)?;
    match areas_of(alloc, &tree, rect) {
        Ok(areas) => {
            put_counts(&areas, out);
            Ok(areas.len())
        }
        Err(_) => Err(EntryFault::Run(RunFault::Memory)),
    }
}
