//! The level at an entry alone, as a file.

ghost use Rattle.std.specs.Prelude.{◌≡◌, ◌<◌, ◌≤◌, IfErr, IfOk, List, ℕ, drop, length, take};
ghost use Rattle.lens_engines.specs.Cut.{IsCut, RefusesCut};
ghost use Rattle.wadlook_c.specs.Cut.{EndsCut, cut_number_of, uncut_number_of};
ghost use Rattle.wadlook_c.specs.Status.{no_room_number};

use crate::status::{
    DONE, LUMP_MISSING, LUMP_OUTSIDE, NO_LEVEL, NO_MEMORY, NO_ROOM, TOO_LARGE, wad_number_of,
};
use lens_engines::{CutFault, Uncut, cut_level};
use memory_streams::ToVec;
use std::alloc::Global;

/// Writes a PWAD of the level whose label is an entry, with the lumps that belong to it in its format, to the front of `out`,
/// and its number of bytes to `written`. It returns 0, or else the status of a refusal. At `NO_ROOM`, `written` is the number
/// of bytes that it needs.
#[unsafe(no_mangle)]
pub extern "C" fn wadlook_extract_at(
    alloc: Global,
    wad: &[u8],
    entry: usize,
    out: &mut [u8],
    written: &mut usize,
) -> u32
    ensures done { result ≡ 0 → IsCut wad.now entry (take written.new out.new) }
    ensures inside { result ≡ 0 → written.new ≤ length out.old }
    ensures behind { result ≡ 0 → drop written.new out.new ≡ drop written.new out.old }
    ensures room { result ≡ no_room_number → (file : List ℕ) × IsCut wad.now entry file
        × (written.new ≡ length file) × (length out.old < length file) }
    ensures refused { ¬ (result ≡ 0) → ¬ (result ≡ no_room_number) → EndsCut wad.now entry result }
    ensures untouched { ¬ (result ≡ 0) → out.new ≡ out.old }
    ensures written_untouched { ¬ (result ≡ 0) → ¬ (result ≡ no_room_number) → written.new ≡ written.old }
{
    match cut(alloc, wad, entry) {
        Ok(file) => {
            let count = file.taken().len();
            *written = count;
            if count > out.len() {
                return NO_ROOM;
            }
            out[..count].copy_from_slice(file.taken());
            DONE
        }
        Err(fault) => cut_number_of(&fault),
    }
}

// The file of the level at an entry.
fn cut(alloc: Global, wad: &[u8], entry: usize) -> Result<ToVec, CutFault>
    ensures ok { IfOk result (λ file. IsCut wad.now entry file.taken) }
    ensures err { IfErr result (RefusesCut wad.now entry) }
{
    let mut file = ToVec::new(alloc);
    match cut_level(alloc, wad, entry as u64, &mut file) {
        Ok(()) => Ok(file),
        Err(CutFault::Write) => Err(CutFault::Memory),
        Err(fault) => Err(fault),
    }
}

// The status for why a level isn't cut out.
fn cut_number_of(fault: &CutFault) -> u32
    ensures { result ≡ cut_number_of fault.now }
{
    match *fault {
        CutFault::NoWad(why) => wad_number_of(why),
        CutFault::NoLevel(_) => NO_LEVEL,
        CutFault::Level(_, why) => uncut_number_of(why),
        CutFault::Memory | CutFault::Write => NO_MEMORY,
    }
}

// The status for what a level lacks.
fn uncut_number_of(why: Uncut) -> u32
    ensures { result ≡ uncut_number_of why }
{
    match why {
        Uncut::Incomplete(_) | Uncut::NoEndMap => LUMP_MISSING,
        Uncut::Outside(_) => LUMP_OUTSIDE,
        Uncut::TooLarge => TOO_LARGE,
    }
}
