//! Where the lump of an entry lies.

ghost use Rattle.std.specs.Prelude.{◌≡◌, IfErr, IfOk};
ghost use Rattle.wadlook_c.specs.Ends.{EndsBy};
ghost use Rattle.wadlook_c.specs.Lumps.{IsFoundAt, RefusesLumpAt};

use crate::find::{WadlookLump, lump_at};
use crate::opening::open_file;
use crate::status::{DONE, number_of};
use look_engines::RunFault;
use std::alloc::Global;
use wad_dir::LumpFault;

/// Writes to `lump` where the lump of an entry lies. It returns 0, or else the status of a refusal.
#[unsafe(no_mangle)]
pub extern "C" fn wadlook_find_at(
    alloc: Global,
    wad: &[u8],
    entry: usize,
    lump: &mut WadlookLump,
) -> u32
    ensures done { result ≡ 0 → IsFoundAt wad.now entry lump.new }
    ensures refused { ¬ (result ≡ 0) → EndsBy (RefusesLumpAt wad.now entry) result }
    ensures untouched { ¬ (result ≡ 0) → lump.new ≡ lump.old }
{
    match found_at(alloc, wad, entry) {
        Ok(there) => {
            *lump = there;
            DONE
        }
        Err(fault) => number_of(fault),
    }
}

// The lump of an entry.
fn found_at(alloc: Global, wad: &[u8], entry: usize) -> Result<WadlookLump, RunFault>
    ensures ok { IfOk result (IsFoundAt wad.now entry) }
    ensures err { IfErr result (RefusesLumpAt wad.now entry) }
{
    let set = open_file(alloc, wad)?;
    if entry >= set.total() {
        return Err(RunFault::Lump(LumpFault::NoSuch));
    }
    match lump_at(&set, entry) {
        Some(lump) => Ok(lump),
        None => Err(RunFault::Lump(LumpFault::Outside)),
    }
}
