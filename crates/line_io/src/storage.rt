//! Files by their paths, read whole.
ghost use Rattle.std.specs.Prelude.{◌≡◌, ◌<◌, ◌≤◌, map, vec_len, IfErr, IfOk, IfSome, length};
ghost use Rattle.std.specs.List.{slice_get};
ghost use Rattle.std.specs.Io.KnownBytes.{Keeps};
ghost use Rattle.line_io.specs.Storage.{AreHeld, IsAnswered, IsHeld, IsOpenedFault, RefusesFile, RefusesFiles, bytes_of, total_length};

use super::fault::IoFault;
use super::input::{MAX_READ, read_again};
use le_rec::{EndFault, FromRead};
use std::alloc::Global;
use std::fs::File;
use std::io::Read;
use std::rt::Files;
use std::str;
use thiserror::Error;

/// A place where files are opened by their paths.
pub trait Storage {
    ghost use Rattle.std.specs.Prelude.{ℕ, List, Option, IfErr, IfOk};
    ghost use Rattle.std.specs.Io.KnownBytes.{Keeps};

    type File: Read + Drop;

    /// The bytes of the file under a path, where they are known.
    ghost held: { Self → List ℕ → Option (List ℕ) };

    /// What holds where the file under a path isn't opened.
    ghost refuses: { Self → List ℕ → Type 0 };

    /// The file under `path`, from its first byte on.
    fn open(&self, path: &[u8]) -> Result<Self::File, EndFault>
        ensures held { IfOk result (λ file. Keeps (held self.now path.now) (Self.File.remaining file)) }
        ensures refused { IfErr result (λ _. refuses self.now path.now) };
}

/// The files of the machine. No clause knows what they hold, nor why one isn't opened.
#[derive(Drop)]
pub struct Disk<'a, R: Files>(pub &'a R);

impl<R: Files> Storage for Disk<'_, R> {
    ghost use Rattle.std.specs.Prelude.{None};

    type File = R::File;

    ghost held = { λ _ _. None };

    ghost refuses = { λ _ _. Unit {0} };

    // The library opens paths that are UTF-8, and no others.
    fn open(&self, path: &[u8]) -> Result<R::File, EndFault> {
        let Ok(path) = str::from_utf8(path) else {
            return Err(EndFault);
        };
        match File::open(self.0, path) {
            Ok(file) => Ok(file),
            Err(_) => Err(EndFault),
        }
    }
}

/// Why a file isn't read.
#[derive(Clone, Copy, Debug, PartialEq, Eq, Error)]
pub enum StorageFault {
    /// It can't be opened.
    #[error("the file can't be opened")]
    Unopened,
    /// It can't be read to its end.
    #[error("the file can't be read")]
    Unread,
    /// It has more bytes than are read.
    #[error("the file is larger than what is read")]
    TooLong,
    /// A growth was refused.
    #[error("no memory left")]
    Memory,
}

/// Reads the file under a path to its end, into the memory of `room`, whose own bytes are dropped.
pub fn read_file<S: Storage>(
    room: Vec<u8>,
    storage: &S,
    path: &[u8],
    limit: u64,
) -> Result<Vec<u8>, StorageFault>
    requires { limit ≤ MAX_READ }
    ensures held { IfOk result (λ file. IsHeld limit (S.held storage.now path.now) file.items) }
    ensures refused { IfErr result (RefusesFile limit (S.held storage.now path.now)) }
    ensures answered { IfErr result (IsAnswered S.File.remaining (S.held storage.now path.now) (S.refuses storage.now path.now)) }
{
    match storage.open(path) {
        Ok(file) => read_whole(room, file, limit),
        Err(EndFault) => Err(StorageFault::Unopened),
    }
}

/// Reads an input to its end, into the memory of `room`, whose own bytes are dropped.
pub fn read_whole<R: Read + Drop>(
    room: Vec<u8>,
    input: R,
    limit: u64,
) -> Result<Vec<u8>, StorageFault>
    requires { limit ≤ MAX_READ }
    ensures held { IfOk result (λ file. IsHeld limit (R.remaining input) file.items) }
    ensures refused { IfErr result (RefusesFile limit (R.remaining input)) }
    ensures opened { IfErr result IsOpenedFault }
{
    match read_again(room, &mut FromRead::new(input), limit) {
        Ok(bytes) => Ok(bytes),
        Err(IoFault::Memory) => Err(StorageFault::Memory),
        Err(IoFault::TooLong) => Err(StorageFault::TooLong),
        Err(_) => Err(StorageFault::Unread),
    }
}

/// A file's path, as bytes.
pub trait FilePath {
    ghost use Rattle.std.specs.Prelude.{◌≡◌, ℕ, List};

    ghost spelled: { Self → List ℕ };

    fn path_bytes(&self) -> &[u8]
        ensures { result.now ≡ spelled self.now };
}

impl FilePath for String {
    ghost use Rattle.std.specs.Prelude.{string_bytes};

    ghost spelled = { λ path. string_bytes path };

    fn path_bytes(&self) -> &[u8] {
        self.as_str().as_bytes()
    }
}

impl FilePath for &str {
    ghost spelled = { λ path. path.now };

    fn path_bytes(&self) -> &[u8] {
        self.as_bytes()
    }
}

/// The first of some files that isn't read: its place among them, from 0 on, and why.
#[derive(Clone, Copy, Debug, PartialEq, Eq)]
pub struct FirstUnread {
    pub place: usize,
    pub fault: StorageFault,
}

/// Reads the files under the paths, each to its end and in order. Each has at most `MAX_READ` bytes, and all of them at most `most`.
/// Where a path is given twice, its file's bytes count both times.
pub fn read_files<S: Storage, P: FilePath>(
    alloc: Global,
    storage: &S,
    paths: &[P],
    most: u64,
) -> Result<Vec<Vec<u8>>, FirstUnread>
    ensures held { IfOk result (λ files. AreHeld (S.held storage.now) (map P.spelled paths.now) (bytes_of files.items)) }
    ensures count { IfOk result (λ files. vec_len files ≡ length paths.now) }
    ensures few { IfOk result (λ files. total_length (bytes_of files.items) ≤ most) }
    ensures refused { IfErr result (RefusesFiles most (S.held storage.now) (map P.spelled paths.now)) }
    ensures among { IfErr result (λ first. first.place < length paths.now) }
    ensures answered { IfErr result (λ first. IfSome (slice_get (map P.spelled paths.now) first.place) (λ path.
        IsAnswered S.File.remaining (S.held storage.now path) (S.refuses storage.now path) first.fault)) }
{
    let mut files = Vec::new(alloc);
    let mut left = most;
    for (place, path) in paths.iter().enumerate() {
        let limit = left.min(MAX_READ);
        let file = match read_file(Vec::new(alloc), storage, path.path_bytes(), limit) {
            Ok(file) => file,
            Err(fault) => return Err(FirstUnread { place, fault }),
        };
        left -= file.len() as u64;
        let Ok(()) = files.push(file) else {
            let fault = StorageFault::Memory;
            return Err(FirstUnread { place, fault });
        };
    }
    Ok(files)
}
