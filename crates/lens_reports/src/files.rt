//! The files of a run, one after another: those of the machine, which are read, or those that a host lends.
ghost use Rattle.std.specs.Prelude.{◌≤◌, vec_len, Some, IfErr, IfOk};
ghost use Rattle.std.specs.Io.KnownBytes.{Keeps};
ghost use Rattle.line_io.specs.declared.input.TheConstants.{MAX_READ};
ghost use Rattle.lens_reports.specs.Files.{IsAnswered, IsOpenedFault, RefusesRead, read_fault_of};

use le_rec::{EndFault, FromRead};
use lens_engines::FileRefusal;
use line_io::{IoFault, MAX_READ, Storage, StorageFault, read_again};
use std::alloc::Allocator;
use std::io::Read;
use thiserror::Error;

/// Why a file isn't read.
#[derive(Clone, Copy, Debug, PartialEq, Eq, Error)]
pub enum ReadFault {
    /// The file is refused.
    #[error("the file is refused")]
    Refused(FileRefusal),
    /// A growth was refused.
    #[error("no memory left")]
    Memory,
}

impl ReadFault {
    ghost use Rattle.std.specs.Prelude.{◌≡◌};
    ghost use Rattle.lens_reports.specs.Files.{read_fault_of};

    /// The fault of a file that isn't read whole.
    pub fn from_storage(fault: StorageFault) -> ReadFault
        ensures { result ≡ read_fault_of fault }
    {
        match fault {
            StorageFault::Unopened => ReadFault::Refused(FileRefusal::Unopened),
            StorageFault::Unread => ReadFault::Refused(FileRefusal::Unread),
            StorageFault::TooLong => ReadFault::Refused(FileRefusal::TooLarge),
            StorageFault::Memory => ReadFault::Memory,
        }
    }
}

/// Reads the file under a path to its end, into the memory of `room`, whose bytes are dropped.
pub fn read_path<S: Storage, A: Allocator>(
    room: Vec<u8, A>,
    storage: &S,
    path: &[u8],
) -> Result<Vec<u8, A>, ReadFault>
    ensures held { IfOk result (λ file. Keeps (S.held storage.now path.now) (Some file.items)) }
    ensures few { IfOk result (λ file. vec_len file ≤ MAX_READ) }
    ensures refused { IfErr result (RefusesRead (S.held storage.now path.now)) }
    ensures answered { IfErr result (IsAnswered (S.refuses storage.now path.now)) }
{
    match storage.open(path) {
        Ok(file) => read_input(room, file),
        Err(EndFault) => Err(ReadFault::Refused(FileRefusal::Unopened)),
    }
}

/// Reads an input to its end, into the memory of `room`, whose bytes are dropped.
pub fn read_input<R: Read + Drop, A: Allocator>(
    room: Vec<u8, A>,
    input: R,
) -> Result<Vec<u8, A>, ReadFault>
    ensures held { IfOk result (λ file. Keeps (R.remaining input) (Some file.items)) }
    ensures few { IfOk result (λ file. vec_len file ≤ MAX_READ) }
    ensures refused { IfErr result (RefusesRead (R.remaining input)) }
    ensures opened { IfErr result IsOpenedFault }
{
    match read_again(room, &mut FromRead::new(input), MAX_READ) {
        Ok(bytes) => Ok(bytes),
        Err(IoFault::Memory) => Err(ReadFault::Memory),
        Err(IoFault::TooLong) => Err(ReadFault::Refused(FileRefusal::TooLarge)),
        Err(_) => Err(ReadFault::Refused(FileRefusal::Unread)),
    }
}

/// The bytes of a file: read into memory, or lent by their owner.
#[derive(Drop)]
pub enum FileBytes<'f, A: Allocator> {
    Read(Vec<u8, A>),
    Lent(&'f [u8]),
}

impl<A: Allocator> FileBytes<'_, A> {
    ghost use Rattle.std.specs.Prelude.{◌≡◌};
    ghost use Rattle.lens_reports.specs.Files.{bytes_in};

    /// The bytes.
    pub fn as_slice(&self) -> &[u8]
        ensures { result.now ≡ bytes_in self.now }
    {
        match self {
            FileBytes::Read(bytes) => bytes,
            FileBytes::Lent(bytes) => bytes,
        }
    }

    /// Their memory, for the next file's bytes. Who takes it drops what is left in it, so no clause speaks of that.
    pub fn into_room(self, alloc: A) -> Vec<u8, A> {
        match self {
            FileBytes::Read(bytes) => bytes,
            FileBytes::Lent(_) => Vec::new(alloc),
        }
    }
}

/// The files of a run, each at its place, from 0 on, and under its path.
pub trait RunFiles {
    ghost use Rattle.std.specs.Prelude.{ℕ, List, IfErr, IfOk};
    ghost use Rattle.lens_reports.specs.Files.{IsKnownAs, Known, RefusesKnown, bytes_in};

    /// What is known of a file.
    ghost known: { Self → ℕ → List ℕ → Known };

    /// Reads a file whole, in the memory of `room`, or lends it.
    fn read<A: Allocator>(
        &self,
        place: usize,
        path: &[u8],
        room: Vec<u8, A>,
    ) -> Result<FileBytes<'_, A>, ReadFault>
        ensures known { IfOk result (λ bytes. IsKnownAs (known self.now place path.now) (bytes_in bytes)) }
        ensures refused { IfErr result (RefusesKnown (known self.now place path.now)) };
}

/// The files under paths of a storage.
#[derive(Clone, Copy)]
pub struct Stored<'s, S>(pub &'s S);

impl<S: Storage> RunFiles for Stored<'_, S> {
    ghost use Rattle.std.specs.Prelude.{IfErr, IfOk};
    ghost use Rattle.lens_reports.specs.Files.{IsKnownAs, RefusesRead, at_path, bytes_in, stored};

    ghost known = { λ files. stored (S.held files.0.now) };

    fn read<A: Allocator>(
        &self,
        _place: usize,
        path: &[u8],
        room: Vec<u8, A>,
    ) -> Result<FileBytes<'_, A>, ReadFault>
        ensures known { IfOk result (λ bytes. IsKnownAs (at_path (S.held self.now.0.now path.now)) (bytes_in bytes)) }
        ensures refused { IfErr result (RefusesRead (S.held self.now.0.now path.now)) }
    {
        let bytes = read_path(room, self.0, path)?;
        Ok(FileBytes::Read(bytes))
    }
}

/// Files that a host holds, one at each place.
#[derive(Clone, Copy)]
pub struct Held<'f>(pub &'f [&'f [u8]]);

impl RunFiles for Held<'_> {
    ghost use Rattle.std.specs.List.{slice_get};
    ghost use Rattle.std.specs.Prelude.{map, IfErr, IfOk};
    ghost use Rattle.lens_reports.specs.Files.{IsKnownAs, RefusesKnown, bytes_in, lent, lent_at};

    ghost known = { λ files. lent (map (λ file. file.now) files.0.now) };

    fn read<A: Allocator>(
        &self,
        place: usize,
        _path: &[u8],
        _room: Vec<u8, A>,
    ) -> Result<FileBytes<'_, A>, ReadFault>
        ensures known { IfOk result (λ bytes.
            IsKnownAs (lent_at (slice_get (map (λ file. file.now) self.now.0.now) place)) (bytes_in bytes)) }
        ensures refused { IfErr result (RefusesKnown (lent_at (slice_get (map (λ file. file.now) self.now.0.now) place))) }
    {
        match self.0.get(place) {
            Some(file) if file.len() as u64 <= MAX_READ => Ok(FileBytes::Lent(file)),
            Some(_) => Err(ReadFault::Refused(FileRefusal::TooLarge)),
            None => Err(ReadFault::Refused(FileRefusal::Unopened)),
        }
    }
}
