//! Why the program refused, and the status with which it ends.
ghost use Rattle.std.specs.Prelude.{◌≡◌};
ghost use Rattle.wadlook.specs.ExitStatus.{exit_status_of};

use look_engines::{RunFault, status};
use std::alloc::AllocError;
use thiserror::Error;

/// Why the program refused.
#[derive(Clone, Copy, Debug, Error)]
pub enum ProgramRefusal {
    /// The words are no form of a command.
    #[error("usage")]
    Usage,
    /// The file of this number, counted from 1, can't be opened or read.
    #[error("file {0}: read")]
    Unreadable(usize),
    /// The file of this number has more bytes than those before it leave of the most that are read.
    #[error("file {0}: too long")]
    TooLong(usize),
    /// The run stopped.
    #[error("{0}")]
    Run(RunFault),
}

impl From<RunFault> for ProgramRefusal {
    ghost use Rattle.wadlook.specs.declared.refusal.ProgramRefusal.TheVariants.{Run};

    ghost from_gives = { λ fault refusal. refusal ≡ Run fault };

    fn from(fault: RunFault) -> ProgramRefusal {
        ProgramRefusal::Run(fault)
    }
}

impl From<AllocError> for ProgramRefusal {
    ghost use Rattle.look_engines.specs.declared.fault.RunFault.TheVariants.{Memory};
    ghost use Rattle.wadlook.specs.declared.refusal.ProgramRefusal.TheVariants.{Run};

    ghost from_gives = { λ _ refusal. refusal ≡ Run Memory };

    fn from(_error: AllocError) -> ProgramRefusal {
        ProgramRefusal::Run(RunFault::Memory)
    }
}

/// The status with which the program ends.
pub fn exit_status(outcome: &Result<bool, ProgramRefusal>) -> u8
    ensures { result ≡ exit_status_of outcome.now }
{
    match *outcome {
        Ok(clean) => status(&Ok(clean)),
        Err(ProgramRefusal::Run(fault)) => status(&Err(fault)),
        Err(_) => 2,
    }
}
