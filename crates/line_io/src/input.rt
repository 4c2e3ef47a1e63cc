//! How bytes are read from a source.
ghost use Rattle.std.specs.Prelude.{◌≡◌, ◌<◌, ◌≤◌, true, false, [], ◌++◌, length, IfOk, IfErr};
ghost use Rattle.std.specs.Prelude.{MatchResult, OnOk, OnErr};
ghost use Rattle.std.specs.Io.KnownBytes.{Consumes, IsAtEnd, Keeps};
ghost use Rattle.line_io.specs.ReadsAll.{ReadsAll};
ghost use Rattle.line_io.specs.declared.fault.IoFault.TheVariants.{Memory, Read};

use super::fault::IoFault;
use le_rec::Source;
use std::alloc::Allocator;

/// The next bytes of `input`, at most as many as `block` has room for; none only at its end.
pub fn next_block<'b, S: Source>(input: &mut S, block: &'b mut [u8]) -> Result<&'b [u8], IoFault>
    requires { 0 < length block.old }
    ensures bound { IfOk result (λ bytes. length bytes.now ≤ length block.old) }
    ensures given { IfOk result (λ bytes.
        Consumes (S.state input.old).left (S.state input.new).left bytes.now) }
    ensures end { IfOk result (λ bytes. bytes.now ≡ [] → IsAtEnd (S.state input.new).left) }
    ensures sound { OnOk result ((S.state input.new).failed ≡ (S.state input.old).failed) }
    ensures fault { IfErr result (λ e. (e ≡ Read) × ((S.state input.new).failed ≡ true)) }
    ensures stays { OnErr result (Keeps (S.state input.old).left (S.state input.new).left) }
{
    match input.pull(block) {
        Ok(count) => Ok(&block[..count]),
        Err(_) => Err(IoFault::Read),
    }
}

/// The most bytes that are read of an input.
pub const MAX_READ: u64 = 268_435_456;

/// The most bytes that are pulled at once.
pub const BLOCK: usize = 65_536;

/// Reads `input` to its end, and at most one byte past `limit`. `TooLong` if it has more than `limit` bytes,
/// `Memory` if there is no room for those read so far. After a failed pull it pulls no more.
pub fn read_all<S: Source, A: Allocator>(
    alloc: A,
    input: &mut S,
    limit: u64,
) -> Result<Vec<u8, A>, IoFault>
    requires limit { limit ≤ MAX_READ }
    requires input { (S.state input.old).failed ≡ false }
    ensures { ReadsAll limit (S.state input.old) (S.state input.new) result }
{
    read_again(Vec::new(alloc), input, limit)
}

/// As [`read_all`], into the memory of `bytes`, whose own bytes are dropped. So one input reuses the memory of
/// the last.
pub fn read_again<S: Source, A: Allocator>(
    bytes: Vec<u8, A>,
    input: &mut S,
    limit: u64,
) -> Result<Vec<u8, A>, IoFault>
    requires limit { limit ≤ MAX_READ }
    requires input { (S.state input.old).failed ≡ false }
    ensures { ReadsAll limit (S.state input.old) (S.state input.new) result }
{
    let mut block = [0; BLOCK];
    let mut bytes = bytes;
    bytes.clear();
    'turns: for _turn in 0..limit + 1 {
        let room = (limit + 1 - bytes.len() as u64).min(BLOCK as u64) as usize;
        let more = next_block(input, &mut block[..room])?;
        if more.is_empty() {
            return Ok(bytes);
        }
        if bytes.len() as u64 + more.len() as u64 > limit {
            return Err(IoFault::TooLong);
        }
        append(&mut bytes, more)?;
    }
    unreachable!()
}

// Adds `more` behind the bytes: all that takes memory here.
fn append<A: Allocator>(bytes: &mut Vec<u8, A>, more: &[u8]) -> Result<(), IoFault>
    ensures ok { OnOk result (bytes.new.items ≡ bytes.old.items ++ more.now) }
    ensures err { IfErr result (λ e. e ≡ Memory) }
{
    match bytes.extend_from_slice(more) {
        Ok(()) => Ok(()),
        Err(_) => Err(IoFault::Memory),
    }
}
