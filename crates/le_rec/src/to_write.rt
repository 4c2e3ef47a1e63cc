//! A writer as a sink.
ghost use Rattle.std.specs.Prelude.{◌≡◌, false};

use super::ends::{EndFault, Sink};
use std::io::Write;

/// A writer as a sink. A put is one write. An error of the writer, of whatever kind, is a failed
/// put, and so is a write that takes none of some bytes.
#[derive(Drop)]
pub struct ToWrite<W: Write> {
    writer: W,
    failed: bool,
}

impl<W: Write> ToWrite<W> {
    ghost use Rattle.le_rec.specs.Sink.{put_failed, writer_of};

    /// A sink over `writer` that hasn't failed.
    pub fn new(writer: W) -> Self
        ensures writer { writer_of result ≡ writer }
        ensures fresh { put_failed result ≡ false }
    {
        ToWrite {
            writer,
            failed: false,
        }
    }
}

impl<W: Write> Sink for ToWrite<W> {
    ghost use Rattle.le_rec.specs.Sink.{SinkState, put_failed, writer_of};

    ghost state = { λ s. record { taken = W.contents (writer_of s); failed = put_failed s } };

    fn put(&mut self, bytes: &[u8]) -> Result<usize, EndFault> {
        match self.writer.write(bytes) {
            Ok(count) if count > 0 || bytes.is_empty() => Ok(count),
            _ => {
                self.failed = true;
                Err(EndFault)
            }
        }
    }

    fn failed(&self) -> bool {
        self.failed
    }
}
