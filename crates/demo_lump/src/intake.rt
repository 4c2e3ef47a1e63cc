//! Bytes taken from a source, as many as are needed, up to a limit.

ghost use Rattle.std.specs.Prelude.{◌≡◌, ◌≤◌, false, length};
ghost use Rattle.demo_lump.specs.Takes.{Takes, TakesAll, Fills, IsByte};
ghost use Rattle.demo_lump.specs.declared.intake.TheConstants.{MAX_READ};

use crate::fault::StreamFault;
use le_rec::Source;

/// The most bytes that a reader takes of a demo, and so its greatest limit.
pub const MAX_READ: u64 = 268_435_456;

/// The most bytes that are pulled at once behind the marker.
const BLOCK: usize = 4096;

/// How many bytes may be taken, and how many were.
#[derive(Drop)]
pub(crate) struct Intake {
    pub limit: u64,
    pub taken: u64,
    ghost small: { limit ≤ MAX_READ },
}

impl Intake {
    /// Fills `buf`, and returns whether there were enough bytes. It asks for no other bytes.
    pub fn fill<S: Source>(&mut self, source: &mut S, buf: &mut [u8]) -> Result<bool, StreamFault>
        requires sound { (S.state source.old).failed ≡ false }
        requires within { self.old.taken ≤ self.old.limit }
        ensures limit { self.new.limit ≡ self.old.limit }
        ensures takes { Takes (Fills buf.new) (length buf.old) self.old.limit
            (S.state source.old) (S.state source.new) self.old.taken self.new.taken result }
    {
        let room = self.limit - self.taken;
        let most = (buf.len() as u64).min(room + 1) as usize;
        let mut filled = 0;
        // Each turn but the last takes a byte.
        'turns: for _turn in 0..most + 1 {
            if filled == buf.len() {
                return Ok(true);
            }
            match source.pull(&mut buf[filled..most]) {
                Ok(count) => {
                    if count == 0 {
                        return Ok(false);
                    }
                    filled += count;
                    self.taken += count as u64;
                    if self.taken > self.limit {
                        return Err(StreamFault::TooLong);
                    }
                }
                Err(_) => return Err(StreamFault::Read),
            }
        }
        unreachable!()
    }

    /// Takes one byte, or none at the end.
    #[inline]
    pub fn byte<S: Source>(&mut self, source: &mut S) -> Result<Option<u8>, StreamFault>
        requires sound { (S.state source.old).failed ≡ false }
        requires within { self.old.taken ≤ self.old.limit }
        ensures limit { self.new.limit ≡ self.old.limit }
        ensures takes { Takes IsByte 1 self.old.limit
            (S.state source.old) (S.state source.new) self.old.taken self.new.taken result }
    {
        let mut byte = [0; 1];
        match source.pull(&mut byte) {
            Ok(0) => Ok(None),
            Ok(_) => {
                self.taken += 1;
                if self.taken > self.limit {
                    return Err(StreamFault::TooLong);
                }
                Ok(Some(byte[0]))
            }
            Err(_) => Err(StreamFault::Read),
        }
    }

    /// Takes all that is left, and returns how many bytes that was.
    pub fn rest<S: Source>(&mut self, source: &mut S) -> Result<u64, StreamFault>
        requires sound { (S.state source.old).failed ≡ false }
        requires within { self.old.taken ≤ self.old.limit }
        ensures limit { self.new.limit ≡ self.old.limit }
        ensures takes { TakesAll self.old.limit
            (S.state source.old) (S.state source.new) self.old.taken self.new.taken result }
    {
        let mut block = [0; BLOCK];
        let before = self.taken;
        'turns: for _turn in before..self.limit + 1 {
            let room = (self.limit + 1 - self.taken).min(BLOCK as u64) as usize;
            match source.pull(&mut block[..room]) {
                Ok(count) => {
                    if count == 0 {
                        return Ok(self.taken - before);
                    }
                    self.taken += count as u64;
                    if self.taken == self.limit + 1 {
                        return Err(StreamFault::TooLong);
                    }
                }
                Err(_) => return Err(StreamFault::Read),
            }
        }
        unreachable!()
    }
}
