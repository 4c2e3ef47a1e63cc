//! Why a line isn't made.

use map_level::LevelFault;
use std::alloc::AllocError;
use wad_dir::{PackFault, SetFault};

/// Why a line isn't made.
#[derive(Clone, Copy, Debug, PartialEq, Eq)]
pub enum Fault {
    /// A growth was refused.
    Memory,
    /// A level isn't what its case wants.
    Level,
}

impl From<AllocError> for Fault {
    fn from(_error: AllocError) -> Fault {
        Fault::Memory
    }
}

impl From<PackFault> for Fault {
    fn from(_fault: PackFault) -> Fault {
        Fault::Memory
    }
}

impl From<SetFault> for Fault {
    fn from(_fault: SetFault) -> Fault {
        Fault::Level
    }
}

impl From<LevelFault> for Fault {
    fn from(_fault: LevelFault) -> Fault {
        Fault::Level
    }
}
