//! Several WAD files, with their entries numbered in one list.

ghost use Rattle.std.specs.Prelude.{◌≡◌, ◌≢◌, ℕ, ◌+◌, ◌<◌, ◌^◌, ◌≤◌, ◌↔◌, Some, List, [], ◌∷◌, ◌++◌, length, map};
ghost use Rattle.std.specs.Prelude.{IfOk, IfErr, IsOk, IfSome, IfNone, IsErrOf, vec_capacity, vec_len};
ghost use Rattle.std.specs.List.{All, slice_get};
ghost use Rattle.std.specs.Option.{option_map};
ghost use Rattle.wad_dir.specs.Directory.{HasDirectory};
ghost use Rattle.wad_dir.specs.Wad.{IsRead};
ghost use Rattle.wad_dir.specs.Refusal.{IsFirstRefused, RefusesWad};

use crate::file_bytes::AsBytes;
use crate::lump::{Found, LumpFault, lump_of};
use crate::wad::{Wad, WadFault};
use le_rec::Name8;
use std::alloc::{AllocError, Allocator, Global};
use std::marker::Model;
use thiserror::Error;

/// The most files of a set.
pub const MAX_FILES: usize = 64;

/// Why files are no set.
#[derive(Clone, Copy, Debug, PartialEq, Eq, Error)]
pub enum SetFault {
    /// The file of this number, counted from 1, is the first that has no directory.
    #[error("file {0}: {1}")]
    File(u32, WadFault),
    /// A growth was refused.
    #[error("no memory left")]
    Memory,
}

/// Where an entry says that its lump lies. This may be outside the entry's file.
#[derive(Clone, Copy, Debug, PartialEq, Eq)]
pub struct Place {
    /// The file's number, counted from 1.
    pub file: u32,
    /// The place in that file, in bytes from its start.
    pub filepos: i32,
    /// The lump's number of bytes.
    pub size: i32,
}

/// WAD files in order. It borrows the files' bytes, and reads an entry when it is asked for.
#[derive(Drop)]
pub struct Set<'a, A: Allocator = Global> {
    wads: Vec<Wad<'a>, A>,
}

impl<'a, A: Allocator> Model for Set<'a, A> {
    ghost use Rattle.std.specs.Prelude.{List, ◌≤◌, length};
    ghost use Rattle.wad_dir.specs.declared.set.TheConstants.{MAX_FILES};
    ghost use Rattle.wad_dir.specs.Wad as wad;

    ghost Value = { List wad.Wad };

    ghost view = { λ s. s.wads.items };

    ghost invariant = { λ s. length s.wads.items ≤ MAX_FILES };
}

impl<'a, A: Allocator> Set<'a, A> {
    ghost use Rattle.wad_dir.specs.Entries.{joined, names, listed_name};
    ghost use Rattle.wad_dir.specs.Winner.{Wins};
    ghost use Rattle.wad_dir.specs.Slice.{IsLump};
    ghost use Rattle.wad_dir.specs.Place.{place_of};

    /// The set of the files, at most 64 of them, each a vector or a slice. It borrows their bytes. It
    /// first makes room for its list; only this step returns `Memory`. Then it reads one file after
    /// another, and the first that is refused ends it.
    pub fn new<F: AsBytes>(alloc: A, files: &'a [F]) -> Result<Set<'a, A>, SetFault>
        requires { length files.now ≤ MAX_FILES }
        ensures bytes { IfOk result (λ set. map (λ file. file.bytes) set ≡ map F.bytes files.now) }
        ensures read { IfOk result (All IsRead) }
        ensures refused { (n : ℕ) (fault : _) → result ≡ Err (SetFault.File n fault)
            → IsFirstRefused (map F.bytes files.now) n fault }
        ensures no_files { files.now ≡ [] → IsOk result }
    {
        let Ok(room) = Vec::with_capacity(alloc, files.len()) else {
            return Err(SetFault::Memory);
        };
        match read_files(room, files) {
            Ok(wads) => Ok(Set { wads }),
            Err((number, fault)) => Err(SetFault::File(number, fault)),
        }
    }

    /// The set of one file, which is number 1. It borrows the bytes. It reads the file's directory, and
    /// then makes room for its list; only this step returns `Memory`.
    pub fn one(alloc: A, bytes: &'a [u8]) -> Result<Set<'a, A>, SetFault>
        ensures bytes { IfOk result (λ set. map (λ file. file.bytes) set ≡ bytes.now ∷ []) }
        ensures read { IfOk result (All IsRead) }
        ensures refused { (n : ℕ) (fault : _) → result ≡ Err (SetFault.File n fault)
            → (n ≡ 1) × RefusesWad bytes.now fault }
        ensures first { (n : ℕ) (fault : _) → result ≡ Err (SetFault.File n fault)
            → IsFirstRefused (bytes.now ∷ []) n fault }
        ensures memory { result ≡ Err SetFault.Memory → HasDirectory bytes.now }
    {
        let wad = match Wad::read(bytes) {
            Ok(wad) => wad,
            Err(fault) => return Err(SetFault::File(1, fault)),
        };
        let Ok(wads) = alone(alloc, wad) else {
            return Err(SetFault::Memory);
        };
        Ok(Set { wads })
    }

    /// The set of some files and, behind them, the files of this set. It makes room for its list; only
    /// this step can fail.
    pub fn after(&self, alloc: A, base: &[Wad<'a>]) -> Result<Set<'a, A>, AllocError>
        requires { length base.now + length self.now ≤ MAX_FILES }
        ensures { IfOk result (λ set. set ≡ base.now ++ self.now) }
    {
        let mut wads = Vec::with_capacity(alloc, base.len() + self.wads.len())?;
        push_again(&mut wads, base);
        push_again(&mut wads, &self.wads);
        Ok(Set { wads })
    }

    /// The files in order.
    pub fn wads(&self) -> &[Wad<'a>]
        ensures { result.now ≡ self.now }
    {
        &self.wads
    }

    /// The number of files, at most 64.
    pub fn files(&self) -> usize
        ensures files { result ≡ length self.now }
        ensures few { result ≤ MAX_FILES }
    {
        self.wads.len()
    }

    /// A file, counted from 0, or None if there are fewer files.
    pub fn file(&self, index: usize) -> Option<Wad<'a>>
        ensures { result ≡ slice_get self.now index }
    {
        if index >= self.wads.len() {
            return None;
        }
        Some(self.wads[index].again())
    }

    /// The number of entries of all files.
    pub fn total(&self) -> usize
        ensures { result ≡ length (joined self.now) }
    {
        let mut total = 0;
        for wad in &self.wads {
            total += wad.len();
        }
        total
    }

    /// Where the entry of a number says that its lump lies, or None if there are fewer entries.
    /// Entries are numbered through all files, from 0.
    pub fn place(&self, g: usize) -> Option<Place>
        ensures { result ≡ option_map place_of (slice_get (joined self.now) g) }
    {
        let found = self.listed(g)?;
        Some(Place {
            file: found.file,
            filepos: found.entry.filepos,
            size: found.entry.size,
        })
    }

    /// The name of the entry of a number, or None if there are fewer entries.
    pub fn name(&self, g: usize) -> Option<Name8>
        ensures { result ≡ option_map listed_name (slice_get (joined self.now) g) }
    {
        let found = self.listed(g)?;
        Some(Name8::stored(found.entry.name))
    }

    /// The number of the last entry of a name in all files, or None if no entry has it
    /// (`W_CheckNumForName` of w_wad.c). Names in the directory are compared without any change.
    pub fn find(&self, name: Name8) -> Option<usize>
        ensures some { IfSome result (Wins (names self.now) name) }
        ensures none { IfNone result ((g : ℕ) → slice_get (names self.now) g ≢ Some name) }
    {
        let mut first = self.total();
        for k in (0..self.wads.len()).rev() {
            let wad = &self.wads[k];
            first -= wad.len();
            if let Some(i) = wad.last_named(name) {
                return Some(first + i);
            }
        }
        None
    }

    /// The bytes of the lump of the entry of a number, below 2^31 of them, or why there are none.
    pub fn lump(&self, g: usize) -> Result<&'a [u8], LumpFault>
        ensures ok { IfOk result (λ lump. IsLump self.now g lump.now) }
        ensures short { IfOk result (λ lump. length lump.now < 2 ^ 31) }
        ensures no_such { IsErrOf result LumpFault.NoSuch ↔ (length (joined self.now) ≤ g) }
        ensures outside { IsErrOf result LumpFault.Outside
            ↔ ((g < length (joined self.now)) × ((lump : List ℕ) → ¬ IsLump self.now g lump)) }
    {
        let Some(found) = self.listed(g) else {
            return Err(LumpFault::NoSuch);
        };
        match lump_of(found.bytes, &found.entry) {
            Some(lump) => Ok(lump),
            None => Err(LumpFault::Outside),
        }
    }

    // The entry of a number.
    fn listed(&self, g: usize) -> Option<Found<'a>>
        ensures { result ≡ slice_get (joined self.now) g }
    {
        let mut left = g;
        for (i, wad) in self.wads.iter().enumerate() {
            if left < wad.len() {
                return wad.found(i as u32 + 1, left);
            }
            left -= wad.len();
        }
        None
    }
}

// Adds files behind those of a list that has room for them.
fn push_again<'a, A: Allocator>(wads: &mut Vec<Wad<'a>, A>, files: &[Wad<'a>])
    requires { vec_len wads.old + length files.now ≤ vec_capacity wads.old }
    ensures files { wads.new.items ≡ wads.old.items ++ files.now }
    ensures room { vec_capacity wads.new ≡ vec_capacity wads.old }
{
    for wad in files {
        wads.push_reserved(wad.again());
    }
}

// The files' directories in order, put into a list that has room for them; or the number, counted
// from 1, of the first file that has none, and why.
fn read_files<'a, A: Allocator, F: AsBytes>(
    room: Vec<Wad<'a>, A>,
    files: &'a [F],
) -> Result<Vec<Wad<'a>, A>, (u32, WadFault)>
    requires empty { room.items ≡ [] }
    requires enough { length files.now ≤ vec_capacity room }
    requires few { length files.now ≤ MAX_FILES }
    ensures bytes { IfOk result (λ wads.
        map (λ file. file.bytes) wads.items ≡ map F.bytes files.now) }
    ensures read { IfOk result (λ wads. All IsRead wads.items) }
    ensures refused { IfErr result (λ e. IsFirstRefused (map F.bytes files.now) e.0 e.1) }
{
    let mut wads = room;
    for (i, file) in files.iter().enumerate() {
        match Wad::read(file.as_bytes()) {
            Ok(wad) => wads.push_reserved(wad),
            Err(fault) => return Err((i as u32 + 1, fault)),
        }
    }
    Ok(wads)
}

// A list of one file.
fn alone<'a, A: Allocator>(alloc: A, wad: Wad<'a>) -> Result<Vec<Wad<'a>, A>, AllocError>
    ensures { IfOk result (λ wads. wads.items ≡ wad.entry ∷ []) }
{
    let mut wads = Vec::with_capacity(alloc, 1)?;
    wads.push_reserved(wad);
    Ok(wads)
}
