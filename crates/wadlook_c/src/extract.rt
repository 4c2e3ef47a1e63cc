//! A level alone, as a file.

ghost use Rattle.std.specs.Prelude.{◌≡◌, ◌∷◌, [], ◌<◌, ◌≤◌, IfErr, IfOk, List, ℕ, drop, length, take};
ghost use Rattle.look_engines.specs.Engines.Extract.{IsPacked, RefusesExtract};
ghost use Rattle.wadlook_c.specs.Ends.{EndsBy};
ghost use Rattle.wadlook_c.specs.Status.{no_room_number};

use crate::opening::open_file;
use crate::status::{DONE, NO_ROOM, number_of};
use le_rec::Name8;
use look_engines::{RunFault, pack_level};
use map_level::{Level, Reading};
use std::alloc::Global;

/// Writes a PWAD of the level alone to the front of `out`, and its number of bytes to `written`. It returns 0, or else
/// the status of a refusal. At `NO_ROOM`, `written` is the number of bytes that it needs.
#[unsafe(no_mangle)]
pub extern "C" fn wadlook_extract(
    alloc: Global,
    wad: &[u8],
    name: &[u8],
    out: &mut [u8],
    written: &mut usize,
) -> u32
    ensures done { result ≡ 0 → IsPacked (wad.now ∷ []) name.now (take written.new out.new) }
    ensures inside { result ≡ 0 → written.new ≤ length out.old }
    ensures behind { result ≡ 0 → drop written.new out.new ≡ drop written.new out.old }
    ensures room { result ≡ no_room_number → (file : List ℕ) × IsPacked (wad.now ∷ []) name.now file
        × (written.new ≡ length file) × (length out.old < length file) }
    ensures refused { ¬ (result ≡ 0) → ¬ (result ≡ no_room_number)
        → EndsBy (RefusesExtract (wad.now ∷ []) name.now) result }
    ensures untouched { ¬ (result ≡ 0) → out.new ≡ out.old }
    ensures written_untouched { ¬ (result ≡ 0) → ¬ (result ≡ no_room_number) → written.new ≡ written.old }
{
    match file_of(alloc, wad, name) {
        Ok(file) => {
            let count = file.len();
            *written = count;
            if count > out.len() {
                return NO_ROOM;
            }
            out[..count].copy_from_slice(&file);
            DONE
        }
        Err(fault) => number_of(fault),
    }
}

// The file of the level of a name.
fn file_of(alloc: Global, wad: &[u8], name: &[u8]) -> Result<Vec<u8>, RunFault>
    ensures ok { IfOk result (λ file. IsPacked (wad.now ∷ []) name.now file.items) }
    ensures err { IfErr result (RefusesExtract (wad.now ∷ []) name.now) }
{
    let set = open_file(alloc, wad)?;
    let level = match Level::open(&set, Name8::query(name), Reading::Signed) {
        Ok(level) => level,
        Err(fault) => return Err(RunFault::Level(fault)),
    };
    match pack_level(alloc, &set, &level) {
        Ok(file) => Ok(file),
        Err(fault) => Err(RunFault::Pack(fault)),
    }
}
