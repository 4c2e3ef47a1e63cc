//! Reading a whole input.
ghost use Rattle.std.specs.Prelude.{◌≡◌, ◌≤◌, false};
ghost use Rattle.look_engines.specs.Runs.{ReadsWhole};

use crate::fault::{RunFault, ended};
use le_rec::Source;
use line_io::MAX_READ;
use std::alloc::Allocator;

/// Reads `input` to its end, at most one byte past `limit`. `TooLong` where it has more than `limit` bytes, `Memory`
/// where there is no room for those read so far.
pub fn read_all<S: Source, A: Allocator>(
    alloc: A,
    input: &mut S,
    limit: u64,
) -> Result<Vec<u8, A>, RunFault>
    requires limit { limit ≤ MAX_READ }
    requires input { (S.state input.old).failed ≡ false }
    ensures { ReadsWhole limit (S.state input.old) (S.state input.new) result }
{
    ended(line_io::read_all(alloc, input, limit))
}
