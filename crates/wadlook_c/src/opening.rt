//! Opening the level of one file.

ghost use Rattle.std.specs.Prelude.{◌≡◌, ◌∷◌, [], IfErr, IfOk, OnOk};
ghost use Rattle.map_tree.specs.Sound.{IsSound};
ghost use Rattle.look_engines.specs.Opening.{AreRead, IsOpened, RefusesAudit, RefusesFiles, RefusesName};
ghost use Rattle.wadlook_c.specs.Ends.{reading_of};

use le_rec::Name8;
use look_engines::RunFault;
use map_audit::sound_tree;
use map_level::{Level, Reading};
use std::alloc::Allocator;
use wad_dir::{Set, SetFault};

/// The reading that a flag asks for.
pub fn reading_of(wide: bool) -> Reading
    ensures { result ≡ reading_of wide }
{
    if wide { Reading::Wide } else { Reading::Signed }
}

/// The directory of a file.
pub fn open_file<A: Allocator>(alloc: A, wad: &[u8]) -> Result<Set<'_, A>, RunFault>
    ensures ok { IfOk result (AreRead (wad.now ∷ [])) }
    ensures err { IfErr result (RefusesFiles (wad.now ∷ [])) }
{
    match Set::one(alloc, wad) {
        Ok(set) => Ok(set),
        Err(SetFault::File(n, fault)) => Err(RunFault::Set(n, fault)),
        Err(SetFault::Memory) => Err(RunFault::Memory),
    }
}

/// The level of a name, of a file.
pub fn open_level<'a, A: Allocator>(
    alloc: A,
    wad: &'a [u8],
    name: &[u8],
    reading: Reading,
) -> Result<Level<'a>, RunFault>
    ensures ok { IfOk result (IsOpened (wad.now ∷ []) name.now reading) }
    ensures err { IfErr result (RefusesName (wad.now ∷ []) name.now) }
{
    let set = open_file(alloc, wad)?;
    match Level::open(&set, Name8::query(name), reading) {
        Ok(level) => Ok(level),
        Err(fault) => Err(RunFault::Level(fault)),
    }
}

/// That a level is accepted, or why it isn't.
pub fn accepted<A: Allocator + Copy>(alloc: A, level: &Level<'_>) -> Result<(), RunFault>
    ensures ok { OnOk result (IsSound level.now) }
    ensures err { IfErr result (RefusesAudit level.now) }
{
    match sound_tree(alloc, level) {
        Ok(Some(_tree)) => Ok(()),
        Ok(None) => Err(RunFault::Audit),
        Err(_) => Err(RunFault::Memory),
    }
}
