//! A folder on disk that an atlas is written into.

use le_rec::{EndFault, Sink};
use lens_commands::{Folder, FolderFault, FolderRefusal, KeepFault};
use lens_reports::{HandOn, Output};
use std::alloc::Global;
use std::fs::File;
use std::io::{ErrorKind, Write};
use std::rt::Files;
use std::{fs, io, str};

/// A folder on disk, by its path. No clause knows its files.
#[derive(Drop)]
pub struct DiskFolder<'a, R: Files + AllocGlobal> {
    rt: &'a R,
    path: &'a str,
    is_taken: bool,
    is_made: bool,
}

impl<'a, R: Files + AllocGlobal> DiskFolder<'a, R> {
    /// The folder at this path, whether it exists or not.
    pub fn new(rt: &'a R, path: &'a str) -> Self {
        DiskFolder {
            rt,
            path,
            is_taken: false,
            is_made: false,
        }
    }

    // The path of a file while it is written, and the one that it gets when it is whole.
    fn paths(&self, name: &[u8]) -> Result<(String, String), KeepFault> {
        let Ok(name) = str::from_utf8(name) else {
            return Err(KeepFault::Write);
        };
        let part = format!(in self.rt.alloc(); "{}/{name}.part", self.path)?;
        let whole = format!(in self.rt.alloc(); "{}/{name}", self.path)?;
        Ok((part, whole))
    }

    // Checks that the folder is empty, or creates it. Whether it was created.
    fn find_or_create(&self) -> Result<bool, FolderFault> {
        match fs::read_dir(&self.rt, self.path) {
            Ok(mut entries) => match entries.next() {
                None => Ok(false),
                Some(Ok(_)) => Err(FolderFault::Refused(FolderRefusal::NotEmpty)),
                Some(Err(e)) => Err(fault_of(&e, FolderRefusal::Unread)),
            },
            Err(e) if e.kind() == ErrorKind::NotFound => self.create(),
            Err(e) if e.kind() == ErrorKind::NotADirectory => {
                Err(FolderFault::Refused(FolderRefusal::NoFolder))
            }
            Err(e) => Err(fault_of(&e, FolderRefusal::Unread)),
        }
    }

    // Creates the folder, which doesn't exist yet.
    fn create(&self) -> Result<bool, FolderFault> {
        match fs::create_dir(self.rt, self.path) {
            Ok(()) => Ok(true),
            Err(e) if e.kind() == ErrorKind::NotFound => {
                Err(FolderFault::Refused(FolderRefusal::NoParent))
            }
            Err(e) => Err(fault_of(&e, FolderRefusal::Unmade)),
        }
    }
}

// Why a folder isn't taken, by an I/O error: `Memory` if memory ran out, else this refusal.
fn fault_of(error: &io::Error, refusal: FolderRefusal) -> FolderFault {
    match error.kind() {
        ErrorKind::OutOfMemory => FolderFault::Memory,
        _ => FolderFault::Refused(refusal),
    }
}

/// A file of a folder on disk, behind a buffer. It keeps its path while it is written and its final path, so that neither needs
/// memory later. No clause knows its bytes.
#[derive(Drop)]
pub struct DiskFile<W: Write + Drop> {
    output: Output<W>,
    part: String,
    whole: String,
}

impl<W: Write + Drop> Sink for DiskFile<W> {
    ghost use Rattle.std.specs.Prelude.{None};
    ghost use Rattle.le_rec.specs.Sink.{SinkState};
    ghost use Rattle.lens_reports.specs.Output.{output_state};

    ghost state = { λ file. record { taken = None; failed = (output_state W.contents file.output).failed } };

    fn put(&mut self, bytes: &[u8]) -> Result<usize, EndFault> {
        self.output.put(bytes)
    }

    fn failed(&self) -> bool {
        self.output.failed()
    }
}

impl<W: Write + Drop> HandOn for DiskFile<W> {
    ghost use Rattle.std.specs.Prelude.{[]};

    // It shares no log with standard error, so nothing has to be handed on.
    ghost held = { λ _. [] };

    fn hand_on(&mut self) -> Result<(), EndFault> {
        Ok(())
    }
}

impl<R: Files + AllocGlobal> Folder for DiskFolder<'_, R> {
    ghost use Rattle.std.specs.Prelude.{None};

    type File = DiskFile<R::File>;

    ghost kept = { λ _. None };

    ghost refuses = { λ _ _. Unit {0} };

    ghost taken = { λ folder. folder.is_taken };

    fn make(&mut self) -> Result<(), FolderFault> {
        self.is_made = self.find_or_create()?;
        self.is_taken = true;
        Ok(())
    }

    fn begin(&mut self, name: &[u8]) -> Result<Self::File, KeepFault> {
        let (part, whole) = self.paths(name)?;
        let Ok(file) = File::create_new(self.rt, part.as_str()) else {
            return Err(KeepFault::Write);
        };
        match Output::new(self.rt.alloc(), file) {
            Ok(output) => Ok(DiskFile {
                output,
                part,
                whole,
            }),
            Err(_) => {
                // Nothing will be written to it, so it is removed.
                let _ = fs::remove_file(self.rt, part.as_str());
                Err(KeepFault::Memory)
            }
        }
    }

    fn keep(&mut self, mut file: Self::File, _name: &[u8]) -> Result<(), KeepFault> {
        let written = file.output.write_out().is_ok();
        if written && fs::rename(self.rt, file.part.as_str(), file.whole.as_str()).is_ok() {
            return Ok(());
        }
        let _ = fs::remove_file(self.rt, file.part.as_str());
        Err(KeepFault::Write)
    }

    fn leave(&mut self) {
        if self.is_made {
            // If it can't be removed, it stays empty.
            let _ = fs::remove_dir(self.rt, self.path);
        }
    }

    fn discard(&mut self, file: Self::File, _name: &[u8]) {
        // If it can't be removed, its name shows that it isn't whole.
        let _ = fs::remove_file(self.rt, file.part.as_str());
    }
}
