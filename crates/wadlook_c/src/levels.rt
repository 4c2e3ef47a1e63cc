//! The levels of a file.

ghost use Rattle.std.specs.Prelude.{◌≡◌, ◌∷◌, [], ◌<◌, ◌≤◌, IfErr, IfOk, List, drop, length, slice_set};
ghost use Rattle.level_starts.specs.Starts.{LevelStartsAt};
ghost use Rattle.wad_dir.specs.Entries.{names};
ghost use Rattle.look_engines.specs.Opening.{AreRead, RefusesFiles};
ghost use Rattle.wad_dir.specs.Wad.{Wad};
ghost use Rattle.wadlook_c.specs.Ends.{EndsBy};
ghost use Rattle.wadlook_c.specs.Levels.{PutsStart, TellsLevel, TellsLevels, format_code, lump_of, tag_of};

use crate::entry::starts_at;
use crate::opening::open_file;
use crate::status::{DONE, number_of};
use lens_texts::label_of;
use level_starts::{Format, format_of};
use look_engines::RunFault;
use std::alloc::{Allocator, Global};
use wad_dir::Set;

/// A level of a file: the entry of its label, from 0, and the label's name, with zeros behind it. Its format: 0 Doom's, 1
/// Hexen's, 2 UDMF, 3 extended nodes, 4 a lump isn't there or hasn't its name, 5 a lump isn't inside the file. Of the last two
/// `lump` is that lump's place after the label, from 1 to 10, and else 0. Of extended nodes `tag` is how they begin, and else 0.
#[repr(C)]
#[derive(Clone, Copy)]
pub struct WadlookLevel {
    pub entry: usize,
    pub name: [u8; 8],
    pub format: u32,
    pub lump: u32,
    pub tag: [u8; 4],
}

/// Writes as many levels of a file as there is room for, in the order of their entries, and the number of all. It returns 0,
/// or else the status of a refusal.
#[unsafe(no_mangle)]
pub extern "C" fn wadlook_levels(
    alloc: Global,
    wad: &[u8],
    out: &mut [WadlookLevel],
    count: &mut usize,
) -> u32
    ensures done { result ≡ 0 → (files : List Wad) × AreRead (wad.now ∷ []) files × TellsLevels files out.new count.new }
    ensures behind { result ≡ 0 → drop count.new out.new ≡ drop count.new out.old }
    ensures refused { ¬ (result ≡ 0) → EndsBy (RefusesFiles (wad.now ∷ [])) result }
    ensures untouched { ¬ (result ≡ 0) → out.new ≡ out.old }
    ensures count_untouched { ¬ (result ≡ 0) → count.new ≡ count.old }
{
    match listed(alloc, wad, out) {
        Ok(found) => {
            *count = found;
            DONE
        }
        Err(fault) => number_of(fault),
    }
}

fn listed(alloc: Global, wad: &[u8], out: &mut [WadlookLevel]) -> Result<usize, RunFault>
    ensures ok { IfOk result (λ count. (files : List Wad) × AreRead (wad.now ∷ []) files × TellsLevels files out.new count) }
    ensures behind { IfOk result (λ count. drop count out.new ≡ drop count out.old) }
    ensures err { IfErr result (RefusesFiles (wad.now ∷ [])) }
    ensures untouched { IfErr result (λ _. out.new ≡ out.old) }
{
    let set = open_file(alloc, wad)?;
    Ok(put_levels(&set, out))
}

// Writes as many levels as there is room for, and returns how many there are.
fn put_levels<A: Allocator>(set: &Set<'_, A>, out: &mut [WadlookLevel]) -> usize
    ensures told { TellsLevels set.now out.new result }
    ensures behind { drop result out.new ≡ drop result out.old }
{
    let mut count = 0;
    for g in 0..set.total() {
        count += put_start(set, g, out, count);
    }
    count
}

// Writes the level that starts at an entry to a place, if there is room. Returns how many that are: 0 if none starts there, else 1.
fn put_start<A: Allocator>(
    set: &Set<'_, A>,
    g: usize,
    out: &mut [WadlookLevel],
    place: usize,
) -> usize
    ensures few { result ≤ 1 }
    ensures puts { PutsStart set.now g place out.old out.new result }
{
    if !starts_at(set, g) {
        return 0;
    }
    put_level(out, place, told(set, g));
    1
}

// Writes a level to a place, if there is room.
fn put_level(out: &mut [WadlookLevel], place: usize, level: WadlookLevel)
    ensures room { place < length out.old → out.new ≡ slice_set out.old place level }
    ensures full { length out.old ≤ place → out.new ≡ out.old }
{
    if place < out.len() {
        out[place] = level;
    }
}

// The level that starts at an entry.
fn told<A: Allocator>(set: &Set<'_, A>, g: usize) -> WadlookLevel
    requires { LevelStartsAt (names set.now) g }
    ensures { TellsLevel set.now g result }
{
    let format = format_of(set, g);
    WadlookLevel {
        entry: g,
        name: label_of(set, g).bytes(),
        format: format_code(format),
        lump: lump_of(format),
        tag: tag_of(format),
    }
}

// The number of a format.
fn format_code(format: Format) -> u32
    ensures { result ≡ format_code format }
{
    match format {
        Format::Doom => 0,
        Format::Hexen => 1,
        Format::Udmf => 2,
        Format::Extended(_) => 3,
        Format::Incomplete(_) => 4,
        Format::Outside(_) => 5,
    }
}

// The place of the lump that a level lacks.
fn lump_of(format: Format) -> u32
    ensures { result ≡ lump_of format }
{
    match format {
        Format::Incomplete(place) | Format::Outside(place) => place,
        Format::Doom | Format::Hexen | Format::Udmf | Format::Extended(_) => 0,
    }
}

// How extended nodes begin.
fn tag_of(format: Format) -> [u8; 4]
    ensures { result ≡ tag_of format }
{
    match format {
        Format::Extended(tag) => tag,
        _ => [0; 4],
    }
}
