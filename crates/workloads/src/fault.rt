//! Why a job isn't done.

use lens_engines::LevelsFault;
use look_engines::RunFault;
use map_picture::DrawFault;
use std::alloc::AllocError;
use wad_dir::SetFault;

/// Why a job isn't done.
#[derive(Clone, Copy, Debug, PartialEq, Eq)]
pub enum Fault {
    /// There are other words than `JOB SEED ROUNDS [FILE]`.
    Words,
    /// The file can't be read, or is no WAD file with such levels.
    File,
    /// A call of the library failed: memory ran out, or an output failed.
    Call,
}

impl From<AllocError> for Fault {
    fn from(_error: AllocError) -> Fault {
        Fault::Call
    }
}

impl From<SetFault> for Fault {
    fn from(_fault: SetFault) -> Fault {
        Fault::File
    }
}

impl From<DrawFault> for Fault {
    fn from(_fault: DrawFault) -> Fault {
        Fault::Call
    }
}

impl From<LevelsFault> for Fault {
    fn from(_fault: LevelsFault) -> Fault {
        Fault::Call
    }
}

impl From<RunFault> for Fault {
    fn from(_fault: RunFault) -> Fault {
        Fault::Call
    }
}
