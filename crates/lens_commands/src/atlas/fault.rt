//! Why an atlas isn't whole.

ghost use Rattle.std.specs.Prelude.{◌≡◌};

use std::alloc::AllocError;
use wad_dir::WadFault;

/// Why an atlas isn't whole.
#[derive(Clone, Copy, Debug, PartialEq, Eq)]
pub enum AtlasFault {
    /// A growth was refused.
    Memory,
    /// A file of the folder can't be written.
    Write,
    /// Standard error failed in the message about a refused file.
    Errors,
}

/// Why a file of the folder isn't whole.
#[derive(Clone, Copy, Debug, PartialEq, Eq)]
pub enum KeepFault {
    /// A growth was refused.
    Memory,
    /// It can't be written.
    Write,
}

/// Why the levels of a file aren't all in an atlas.
#[derive(Clone, Copy, Debug, PartialEq, Eq)]
pub enum FileFault {
    /// Its bytes have no directory. Nothing was written.
    NoWad(WadFault),
    /// A file of the folder isn't whole.
    Keep(KeepFault),
}

impl From<KeepFault> for AtlasFault {
    ghost use Rattle.lens_commands.specs.Folder.{of_file};

    ghost from_gives = { λ given fault. fault ≡ of_file given };

    fn from(fault: KeepFault) -> AtlasFault {
        match fault {
            KeepFault::Memory => AtlasFault::Memory,
            KeepFault::Write => AtlasFault::Write,
        }
    }
}

impl From<AllocError> for KeepFault {
    ghost use Rattle.lens_commands.specs.declared.atlas.fault.KeepFault.TheVariants.{Memory};

    ghost from_gives = { λ _ fault. fault ≡ Memory };

    fn from(_error: AllocError) -> KeepFault {
        KeepFault::Memory
    }
}
