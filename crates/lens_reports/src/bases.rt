//! The base files of a run, such as a game's own: every other file is judged over them.

ghost use Rattle.std.specs.Prelude.{◌≡◌, ◌<◌, [], false, length, map, slice_index_or, All, IfErr, IfNone, IfOk, IfSome, OnOk};
ghost use Rattle.wad_dir.specs.Refusal.{RefusesWad};
ghost use Rattle.wad_dir.specs.Wad.{IsRead};
ghost use Rattle.lens_reports.specs.Bases.{AddsHeld, AddsWad, AreHeld, EndsAtBase, HasWad, IsRefusedAt, RefusesBase};
ghost use Rattle.lens_reports.specs.Files.{bytes_in};

use crate::end::End;
use crate::files::{FileBytes, ReadFault, RunFiles};
use crate::tell::write_refusal;
use le_rec::Sink;
use lens_engines::FileRefusal;
use std::alloc::{AllocError, Allocator};
use std::marker::Model;
use wad_dir::{MAX_FILES, Wad, WadFault};

/// The paths of the base files: at most 63.
#[derive(Drop)]
pub struct BasePaths<'a> {
    paths: Vec<&'a str>,
}

impl<'a> Model for BasePaths<'a> {
    ghost use Rattle.std.specs.Prelude.{List, ℕ, ◌<◌, length, map};
    ghost use Rattle.wad_dir.specs.declared.set.TheConstants.{MAX_FILES};

    ghost Value = { List (List ℕ) };

    ghost view = { λ base. map (λ path. path.now) base.paths.items };

    ghost invariant = { λ base. length base.paths.items < MAX_FILES };
}

impl<'a> BasePaths<'a> {
    ghost use Rattle.std.specs.Prelude.{◌≡◌, ◌<◌, ◌↔◌, length, map, IfSome, IsSome};
    ghost use Rattle.wad_dir.specs.declared.set.TheConstants.{MAX_FILES};

    /// These paths, or None where they are 64 or more.
    pub fn new(paths: Vec<&'a str>) -> Option<BasePaths<'a>>
        ensures some { IfSome result (λ base. base ≡ map (λ path. path.now) paths.entry.items) }
        ensures few { IsSome result ↔ (length paths.entry.items < MAX_FILES) }
    {
        if paths.len() >= MAX_FILES {
            return None;
        }
        Some(BasePaths { paths })
    }

    /// The paths.
    pub fn paths(&self) -> &[&'a str]
        ensures paths { map (λ path. path.now) result.now ≡ self.now }
        ensures few { length result.now < MAX_FILES }
    {
        &self.paths
    }
}

/// Which base file is refused, and why.
#[derive(Clone, Copy, Debug, PartialEq, Eq)]
pub struct BaseFault {
    /// Its place among them, from 0.
    pub place: usize,
    pub fault: ReadFault,
}

/// Reads the base files, one after another, and the directory of each. It stops at the first that is refused.
pub fn read_bases<'f, A: Allocator + Copy, S: RunFiles>(
    alloc: A,
    files: &'f S,
    paths: &[&[u8]],
) -> Result<Vec<FileBytes<'f, A>, A>, BaseFault>
    ensures held { IfOk result (λ all. AreHeld (S.known files.now) (map (λ path. path.now) paths.now) (map bytes_in all.items)) }
    ensures refused { IfErr result (IsRefusedAt (S.known files.now) (map (λ path. path.now) paths.now)) }
{
    let mut all = Vec::new(alloc);
    for (place, path) in paths.iter().enumerate() {
        if let Err(fault) = push_base(alloc, files, place, path, &mut all) {
            return Err(BaseFault { place, fault });
        }
    }
    Ok(all)
}

// Adds the bytes of a base file.
fn push_base<'f, A: Allocator + Copy, S: RunFiles>(
    alloc: A,
    files: &'f S,
    place: usize,
    path: &[u8],
    all: &mut Vec<FileBytes<'f, A>, A>,
) -> Result<(), ReadFault>
    ensures added { OnOk result (AddsHeld (S.known files.now place path.now) (map bytes_in all.old.items) (map bytes_in all.new.items)) }
    ensures refused { IfErr result (RefusesBase (S.known files.now place path.now)) }
{
    let bytes = files.read(place, path, Vec::new(alloc))?;
    if let Some(why) = wad_fault(bytes.as_slice()) {
        return Err(ReadFault::Refused(FileRefusal::NoWad(why)));
    }
    match all.push(bytes) {
        Ok(()) => Ok(()),
        Err(_) => Err(ReadFault::Memory),
    }
}

// Why bytes have no directory, where they have none.
fn wad_fault(bytes: &[u8]) -> Option<WadFault>
    ensures some { IfSome result (RefusesWad bytes.now) }
    ensures none { IfNone result (HasWad bytes.now) }
{
    match Wad::read(bytes) {
        Ok(_) => None,
        Err(why) => Some(why),
    }
}

/// The directories of these bytes, each of which has one.
pub fn wads_of<'f, A: Allocator>(
    alloc: A,
    held: &'f [FileBytes<'f, A>],
) -> Result<Vec<Wad<'f>, A>, AllocError>
    requires { All (λ bytes. HasWad (bytes_in bytes)) held.now }
    ensures are { IfOk result (λ wads. map (λ wad. wad.bytes) wads.items ≡ map bytes_in held.now) }
    ensures read { IfOk result (λ wads. All IsRead wads.items) }
{
    let mut wads = Vec::new(alloc);
    for i in 0..held.len() {
        push_wad(&mut wads, held[i].as_slice())?;
    }
    Ok(wads)
}

// Adds the directory of bytes that have one.
fn push_wad<'f, A: Allocator>(wads: &mut Vec<Wad<'f>, A>, bytes: &'f [u8]) -> Result<(), AllocError>
    requires { HasWad bytes.now }
    ensures { OnOk result (AddsWad bytes.now wads.old.items wads.new.items) }
{
    let Ok(wad) = Wad::read(bytes) else {
        unreachable!();
    };
    wads.push(wad)?;
    Ok(())
}

/// Reports which base file is refused, and why, and returns the end of the run.
pub fn refuse_base<E: Sink>(paths: &[&[u8]], first: BaseFault, errors: &mut E) -> End
    requires within { first.place < length paths.now }
    requires sound { (E.state errors.old).failed ≡ false }
    ensures { EndsAtBase (slice_index_or (map (λ path. path.now) paths.now) first.place []) first.fault
        (E.state errors.old) (E.state errors.new) result }
{
    match first.fault {
        ReadFault::Memory => End::Memory,
        ReadFault::Refused(refusal) => {
            // If standard error fails too, the message is lost.
            let _ = write_refusal(paths[first.place], refusal, errors);
            End::Refused
        }
    }
}
