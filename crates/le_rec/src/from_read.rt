//! A reader as a source.
ghost use Rattle.std.specs.Prelude.{◌≡◌, false};

use super::ends::{EndFault, Source};
use std::io::Read;

/// A reader as a source. A pull is one read, and an error of the reader, of whatever kind, is a
/// failed pull.
#[derive(Drop)]
pub struct FromRead<R: Read> {
    reader: R,
    failed: bool,
}

impl<R: Read> FromRead<R> {
    ghost use Rattle.le_rec.specs.Source.{pull_failed, reader_of};

    /// A source over `reader` that hasn't failed.
    pub fn new(reader: R) -> Self
        ensures reader { reader_of result ≡ reader }
        ensures fresh { pull_failed result ≡ false }
    {
        FromRead {
            reader,
            failed: false,
        }
    }
}

impl<R: Read> Source for FromRead<R> {
    ghost use Rattle.le_rec.specs.Source.{SourceState, pull_failed, reader_of};

    ghost state = { λ s. record { left = R.remaining (reader_of s); failed = pull_failed s } };

    fn pull(&mut self, buf: &mut [u8]) -> Result<usize, EndFault> {
        match self.reader.read(buf) {
            Ok(count) => Ok(count),
            Err(_) => {
                self.failed = true;
                Err(EndFault)
            }
        }
    }

    fn failed(&self) -> bool {
        self.failed
    }
}
