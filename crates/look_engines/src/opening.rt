//! Opens what a command works on. What takes memory is the set, the audit of a level, the list of its ssectors'
//! sectors and the counters of a census.

ghost use Rattle.std.specs.Prelude.{◌≡◌, ◌≤◌, Err, IfErr, IfOk, length, map};
ghost use Rattle.map_tree.specs.Sound.{IsSound};
ghost use Rattle.wad_dir.specs.declared.set.TheConstants.{MAX_FILES};
ghost use Rattle.look_engines.specs.Opening.{AreRead, IsOpened, RefusesAudit, RefusesFiles, RefusesName};
ghost use Rattle.look_engines.specs.declared.fault.RunFault.TheVariants as fault;

use crate::fault::RunFault;
use le_rec::Name8;
use map_audit::sound_tree;
use map_level::{Level, Reading};
use map_tree::{SectorTree, Tally};
use std::alloc::Allocator;
use wad_dir::{AsBytes, Set, SetFault};

/// The set of the files, by their directories.
pub fn open_set<'a, A: Allocator, F: AsBytes>(
    alloc: A,
    files: &'a [F],
) -> Result<Set<'a, A>, RunFault>
    requires { length files.now ≤ MAX_FILES }
    ensures ok { IfOk result (AreRead (map F.bytes files.now)) }
    ensures err { IfErr result (RefusesFiles (map F.bytes files.now)) }
{
    match Set::new(alloc, files) {
        Ok(set) => Ok(set),
        Err(SetFault::File(n, fault)) => Err(RunFault::Set(n, fault)),
        Err(SetFault::Memory) => Err(RunFault::Memory),
    }
}

/// The level of a name, of the files.
pub fn open_level<'a, A: Allocator, F: AsBytes>(
    alloc: A,
    files: &'a [F],
    name: &[u8],
    reading: Reading,
) -> Result<Level<'a>, RunFault>
    requires { length files.now ≤ MAX_FILES }
    ensures ok { IfOk result (IsOpened (map F.bytes files.now) name.now reading) }
    ensures err { IfErr result (RefusesName (map F.bytes files.now) name.now) }
{
    let set = open_set(alloc, files)?;
    match Level::open(&set, Name8::query(name), reading) {
        Ok(level) => Ok(level),
        Err(fault) => Err(RunFault::Level(fault)),
    }
}

/// The tree of a level that is accepted, with its ssectors' sectors.
#[tactic(auto, using(crate::proofs::OpeningLemmas::links_from_sound))]
pub fn sector_tree<'l, 'a, A: Allocator + Copy>(
    alloc: A,
    level: &'l Level<'a>,
) -> Result<SectorTree<'l, 'a, A>, RunFault>
    ensures ok { IfOk result (λ tree. (tree ≡ level.now) × IsSound level.now) }
    ensures err { IfErr result (RefusesAudit level.now) }
{
    match sound_tree(alloc, level) {
        Ok(Some(tree)) => match SectorTree::of(alloc, tree) {
            Ok(tree) => Ok(tree),
            Err(_) => Err(RunFault::Memory),
        },
        Ok(None) => Err(RunFault::Audit),
        Err(_) => Err(RunFault::Memory),
    }
}

/// The counter for the rectangles of an accepted level's tree.
#[tactic(auto, using(crate::proofs::OpeningLemmas::links_from_sound))]
pub fn tally_of<'t, 'a, A: Allocator + Copy>(
    alloc: A,
    tree: &'t SectorTree<'_, 'a, A>,
) -> Result<Tally<'t, 'a, A>, RunFault>
    requires { IsSound tree.now }
    ensures ok { IfOk result (λ tally. tally ≡ tree.now) }
    ensures err { IfErr result (RefusesAudit tree.now) }
{
    match Tally::of(alloc, tree) {
        Ok(tally) => Ok(tally),
        Err(_) => Err(RunFault::Memory),
    }
}
