//! The command `extract`: a level as a file of its own.

ghost use Rattle.std.specs.Prelude.{◌≡◌, ◌<◌, ◌≤◌, ℕ, List, IfErr, IfOk, IsOkUnless, Err, false, length, map};
ghost use Rattle.level_starts.specs.LevelFile.{HoldsLumps};
ghost use Rattle.map_level.specs.Opening.{AreLumps, AreNames};
ghost use Rattle.wad_dir.specs.Packing.{packed};
ghost use Rattle.wad_dir.specs.declared.packer.TheConstants.{MAX_BYTES};
ghost use Rattle.wad_dir.specs.declared.set.TheConstants.{MAX_FILES};
ghost use Rattle.look_engines.specs.Engines.Extract.{IsPacked, RefusesExtract, RunsExtract, extracted};

use crate::fault::{RunFault, ended};
use crate::opening::open_set;
use le_rec::{Name8, Sink};
use line_io::emit;
use map_level::{Level, Reading};
use std::alloc::Allocator;
use wad_dir::{AsBytes, PackFault, Packer, Set};

/// Writes a PWAD of eleven lumps: the level's label, which has no bytes, and the ten behind it, each with its entry's
/// name. `Set`, `Memory`, `Level` and `Pack` come before anything is written.
pub fn extract<A: Allocator + Copy, F: AsBytes, W: Sink>(
    alloc: A,
    files: &[F],
    name: &[u8],
    out: &mut W,
) -> Result<(), RunFault>
    requires few { length files.now ≤ MAX_FILES }
    requires sound { (W.state out.old).failed ≡ false }
    ensures { RunsExtract W.state (map F.bytes files.now) name.now out.old out.new result }
{
    let file = packed_level(alloc, files, name)?;
    ended(emit(out, file.as_slice()))
}

// The file of the level of the name.
fn packed_level<A: Allocator + Copy, F: AsBytes>(
    alloc: A,
    files: &[F],
    name: &[u8],
) -> Result<Vec<u8, A>, RunFault>
    requires { length files.now ≤ MAX_FILES }
    ensures ok { IfOk result (λ file. IsPacked (map F.bytes files.now) name.now file.items) }
    ensures err { IfErr result (RefusesExtract (map F.bytes files.now) name.now) }
{
    let set = open_set(alloc, files)?;
    let level = match Level::open(&set, Name8::query(name), Reading::Signed) {
        Ok(level) => level,
        Err(fault) => return Err(RunFault::Level(fault)),
    };
    match pack_level(alloc, &set, &level) {
        Ok(file) => Ok(file),
        Err(fault) => Err(RunFault::Pack(fault)),
    }
}

/// The file that `extract` writes for a level of the set, for a caller that has opened both. `TooLarge` if it would have more
/// than 2,147,483,647 bytes, `Memory` if a growth was refused.
pub fn pack_level<'a, A: Allocator + Copy>(
    alloc: A,
    set: &Set<'a, A>,
    level: &Level<'a>,
) -> Result<Vec<u8, A>, PackFault>
    requires there { (lumps : List (List ℕ)) × AreLumps set.now level.now.label lumps }
    requires named { AreNames set.now level.now.label level.now.names }
    ensures ok { (lumps : List (List ℕ)) → AreLumps set.now level.now.label lumps
        → IfOk result (λ file. file.items ≡ packed (extracted level.now.names lumps)) }
    ensures fits { IfOk result (λ file. length file.items ≤ MAX_BYTES) }
    ensures holds { (lumps : List (List ℕ)) → AreLumps set.now level.now.label lumps
        → IfOk result (λ file. HoldsLumps file.items (extracted level.now.names lumps)) }
    ensures too_large { (lumps : List (List ℕ)) → AreLumps set.now level.now.label lumps
        → result ≡ Err PackFault.TooLarge → MAX_BYTES < length (packed (extracted level.now.names lumps)) }
{
    packer_of(alloc, set, level)?.pack(alloc)
}

// The lumps of the new file: the label, which has no bytes, and the ten behind it, each with its entry's name.
fn packer_of<'a, A: Allocator>(
    alloc: A,
    set: &Set<'a, A>,
    level: &Level<'a>,
) -> Result<Packer<'a, A>, PackFault>
    requires there { (lumps : List (List ℕ)) × AreLumps set.now level.now.label lumps }
    requires named { AreNames set.now level.now.label level.now.names }
    ensures ok { (lumps : List (List ℕ)) → AreLumps set.now level.now.label lumps
        → IfOk result (λ packer. packer ≡ extracted level.now.names lumps) }
    ensures memory { IsOkUnless result PackFault.Memory }
{
    let mut packer = Packer::new(alloc);
    packer.add(level.name(0), &[])?;
    'lumps: for k in 1..11 {
        let Ok(lump) = set.lump(level.label() + k) else {
            unreachable!()
        };
        packer.add(level.name(k), lump)?;
    }
    Ok(packer)
}
