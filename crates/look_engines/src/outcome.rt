//! The status with which a run ends.

ghost use Rattle.std.specs.Prelude.{◌≡◌};
ghost use Rattle.look_engines.specs.Outcome.{status_of};

use crate::fault::RunFault;
use wad_dir::PackFault;

/// The program's status by the result of a run: 0 if it was done, 1 if an audit found a fault, 3 if a growth was
/// refused, and 2 for any other refusal.
pub fn status(outcome: &Result<bool, RunFault>) -> u8
    ensures { result ≡ status_of outcome.now }
{
    match outcome {
        Ok(true) => 0,
        Ok(false) => 1,
        Err(RunFault::Memory | RunFault::Pack(PackFault::Memory)) => 3,
        Err(_) => 2,
    }
}
