//! The files of a run.
ghost use Rattle.std.specs.Prelude.{◌≡◌, ◌+◌, ◌<◌, ◌≤◌, ◌^◌, length, vec_len, map, string_bytes, IfErr, IfOk};
ghost use Rattle.line_io.specs.Storage.{AreHeld, total_length};
ghost use Rattle.look_engines.specs.Opening.{bytes_of};
ghost use Rattle.wadlook.specs.Files.{RefusesPaths, refusal_of};

use crate::refusal::ProgramRefusal;
use line_io::{FirstUnread, Storage, StorageFault, read_files};
use look_engines::{MAX_READ, RunFault};
use std::alloc::Global;

/// Reads the files at the paths. Together they may have at most `MAX_READ` bytes.
pub fn read_paths<S: Storage>(
    alloc: Global,
    storage: &S,
    paths: &[String],
) -> Result<Vec<Vec<u8>>, ProgramRefusal>
    ensures held { IfOk result (λ files. AreHeld (S.held storage.now)
        (map string_bytes paths.now) (bytes_of files.items)) }
    ensures count { IfOk result (λ files. vec_len files ≡ length paths.now) }
    ensures few { IfOk result (λ files. total_length (bytes_of files.items) ≤ MAX_READ) }
    ensures refused { IfErr result (RefusesPaths (S.held storage.now) (map string_bytes paths.now)) }
{
    match read_files(alloc, storage, paths, MAX_READ) {
        Ok(files) => Ok(files),
        Err(first) => Err(refusal_of(first)),
    }
}

// Why the program refuses a file that isn't read.
fn refusal_of(first: FirstUnread) -> ProgramRefusal
    requires { first.place + 1 < 2 ^ 64 }
    ensures { result ≡ refusal_of first }
{
    match first.fault {
        StorageFault::Unopened | StorageFault::Unread => ProgramRefusal::Unreadable(
            first.place + 1,
        ),
        StorageFault::TooLong => ProgramRefusal::TooLong(first.place + 1),
        StorageFault::Memory => ProgramRefusal::Run(RunFault::Memory),
    }
}
