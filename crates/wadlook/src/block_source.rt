//! A reader as a source, which is read a block at a time.
ghost use Rattle.std.specs.Prelude.{◌≡◌, ◌-◌, ◌<◌, ◌≤◌, ◌++◌, ◌||◌, false, is_err, length, min, take, IfOk, OnOk, vec_len};
ghost use Rattle.std.specs.Io.KnownBytes.{IsAtEnd, Keeps};

use le_rec::{EndFault, Source};
use line_io::BUFFER;
use std::alloc::{AllocError, Global};
use std::io::Read;

/// A reader as a source. It buffers one block, so a pull of a few bytes needs no call. A pull reads once if the block is used
/// up, and else gives what the block has left. Any error of the reader is a failed pull.
#[derive(Drop)]
pub struct BlockSource<R> {
    reader: R,
    // What was read and not yet given is `block[start..end]`.
    block: Vec<u8>,
    start: usize,
    end: usize,
    failed: bool,
    ghost ordered: { start ≤ end },
    ghost within: { end ≤ vec_len block },
    ghost some: { 0 < vec_len block },
}

impl<R: Read> BlockSource<R> {
    ghost use Rattle.wadlook.specs.BlockSource.{bytes_left, bytes_read, pull_failed, reader_of};

    /// A source over `reader` that hasn't failed, where there is memory for its block.
    pub fn new(alloc: Global, reader: R) -> Result<Self, AllocError>
    where
        R: Drop,
        ensures left { IfOk result (λ s. bytes_left R.remaining s ≡ R.remaining reader) }
        ensures fresh { IfOk result (λ s. pull_failed s ≡ false) }
    {
        let mut block = Vec::with_capacity(alloc, BUFFER)?;
        block.resize(BUFFER, 0)?;
        Ok(BlockSource {
            reader,
            block,
            start: 0,
            end: 0,
            failed: false,
        })
    }

    // Reads the next block, once the last one is used up.
    #[cold]
    #[inline(never)]
    fn read_block(&mut self) -> Result<(), EndFault>
        requires { self.old.start ≡ self.old.end }
        ensures left { Keeps (bytes_left R.remaining self.old) (bytes_left R.remaining self.new) }
        ensures end { OnOk result (self.new.start ≡ self.new.end → IsAtEnd (R.remaining (reader_of self.new))) }
        ensures fault { pull_failed self.new ≡ pull_failed self.old || is_err result }
    {
        self.start = 0;
        self.end = 0;
        match self.reader.read(self.block.as_mut_slice()) {
            Ok(count) => {
                self.end = count;
                Ok(())
            }
            Err(_) => {
                self.failed = true;
                Err(EndFault)
            }
        }
    }

    // Moves bytes of the block to the front of `buf`, as many as it has room for.
    #[inline]
    fn give(&mut self, buf: &mut [u8]) -> usize
        ensures count { result ≡ min (self.old.end - self.old.start) (length buf.new) }
        ensures long { length buf.new ≡ length buf.old }
        ensures moved { bytes_read self.old ≡ take result buf.new ++ bytes_read self.new }
        ensures reader { reader_of self.new ≡ reader_of self.old }
        ensures fault { pull_failed self.new ≡ pull_failed self.old }
    {
        let count = (self.end - self.start).min(buf.len());
        let next = self.start + count;
        copy(&self.block[self.start..next], &mut buf[..count]);
        self.start = next;
        count
    }
}

impl<R: Read> Source for BlockSource<R> {
    ghost use Rattle.le_rec.specs.Source.{SourceState};
    ghost use Rattle.wadlook.specs.BlockSource.{bytes_left, pull_failed};

    ghost state = { λ s. record { left = bytes_left R.remaining s; failed = pull_failed s } };

    #[inline]
    fn pull(&mut self, buf: &mut [u8]) -> Result<usize, EndFault> {
        if self.start == self.end {
            self.read_block()?;
        }
        Ok(self.give(buf))
    }

    fn failed(&self) -> bool {
        self.failed
    }
}

// Copies bytes. The lengths of a command's two parts are fixed ones, which need no call.
#[inline]
fn copy(from: &[u8], to: &mut [u8])
    requires { length to.old ≡ length from.now }
    ensures { to.new ≡ from.now }
{
    match from.len() {
        1 => to[..1].copy_from_slice(&from[..1]),
        3 => to[..3].copy_from_slice(&from[..3]),
        4 => to[..4].copy_from_slice(&from[..4]),
        _ => to.copy_from_slice(from),
    }
}
