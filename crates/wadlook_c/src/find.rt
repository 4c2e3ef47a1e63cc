//! An entry by its name, and where its lump lies.

ghost use Rattle.std.specs.Prelude.{◌≡◌, ◌<◌, ◌∷◌, [], ℕ, pos, List, length, IfOk, IfErr, IfSome, IfNone};
ghost use Rattle.wad_dir.specs.Entries.{joined};
ghost use Rattle.wad_dir.specs.Slice.{IsLump};
ghost use Rattle.look_engines.specs.Opening.{AreRead};
ghost use Rattle.wadlook_c.specs.Ends.{EndsBy};
ghost use Rattle.wadlook_c.specs.Lumps.{IsFound, RefusesLump, TellsLump};

use crate::opening::open_file;
use crate::status::{DONE, number_of};
use le_rec::Name8;
use look_engines::RunFault;
use map_level::LevelFault;
use std::alloc::{Allocator, Global};
use wad_dir::{LumpFault, Place, Set};

/// An entry's number, from 0, and its lump: its place in the file and its size.
#[repr(C)]
#[derive(Clone, Copy)]
pub struct WadlookLump {
    pub entry: usize,
    pub place: usize,
    pub size: usize,
}

/// Finds the last entry of a name, and then the entry `after` places behind it. Writes that entry and where its lump lies
/// to `lump`. After a level's label, 1 to 10 are its lumps. It returns 0, or else the status of a refusal.
#[unsafe(no_mangle)]
pub extern "C" fn wadlook_find(
    alloc: Global,
    wad: &[u8],
    name: &[u8],
    after: usize,
    lump: &mut WadlookLump,
) -> u32
    ensures done { result ≡ 0 → IsFound wad.now name.now after lump.new }
    ensures refused { ¬ (result ≡ 0) → EndsBy (RefusesLump wad.now name.now after) result }
    ensures untouched { ¬ (result ≡ 0) → lump.new ≡ lump.old }
{
    match found(alloc, wad, name, after) {
        Ok(there) => {
            *lump = there;
            DONE
        }
        Err(fault) => number_of(fault),
    }
}

// The lump of the entry `after` places behind the last one of a name.
fn found(alloc: Global, wad: &[u8], name: &[u8], after: usize) -> Result<WadlookLump, RunFault>
    ensures ok { IfOk result (IsFound wad.now name.now after) }
    ensures err { IfErr result (RefusesLump wad.now name.now after) }
{
    let set = open_file(alloc, wad)?;
    let Some(named) = set.find(Name8::query(name)) else {
        return Err(RunFault::Level(LevelFault::NoLabel));
    };
    let left = set.total() - named;
    if after >= left {
        return Err(RunFault::Lump(LumpFault::NoSuch));
    }
    match lump_at(&set, named + after) {
        Some(lump) => Ok(lump),
        None => Err(RunFault::Lump(LumpFault::Outside)),
    }
}

/// The lump of the entry of a number, of a set of one file.
pub fn lump_at<A: Allocator>(set: &Set<'_, A>, entry: usize) -> Option<WadlookLump>
    requires { entry < length (joined set.now) }
    ensures some { (wad : List ℕ) → AreRead (wad ∷ []) set.now → IfSome result (λ told. (told.entry ≡ entry) × TellsLump wad set.now told) }
    ensures none { IfNone result ((lump : List ℕ) → ¬ IsLump set.now entry lump) }
{
    let Ok(lump) = set.lump(entry) else {
        return None
    };
    let Some(place) = set.place(entry) else {
        return None
    };
    Some(WadlookLump {
        entry,
        place: place_of(lump, &place),
        size: lump.len(),
    })
}

// Where a lump lies, 0 where it has no bytes.
fn place_of(lump: &[u8], place: &Place) -> usize
    requires { 0 < length lump.now → (n : ℕ) × (place.now.filepos ≡ pos n) }
    ensures some { 0 < length lump.now → place.now.filepos ≡ pos result }
    ensures none { length lump.now ≡ 0 → result ≡ 0 }
{
    if lump.is_empty() {
        return 0;
    }
    place.filepos as usize
}
