//! An output behind a buffer, which knows whether its reader has gone.

ghost use Rattle.std.specs.Prelude.{◌≡◌, IfOk};
ghost use Rattle.lens_reports.specs.Output.{IsFresh, WritesOut, failed_by, is_closed};

use le_rec::{EndFault, Sink};
use lens_texts::HandOn;
use line_io::BUFFER;
use std::alloc::{AllocError, Global};
use std::io;
use std::io::{BufWriter, ErrorKind, Write};

/// An output behind a buffer, which holds back `BUFFER` bytes at most.
#[derive(Drop)]
pub struct Output<W: Write + Drop> {
    buffer: BufWriter<W>,
    // Whether a write failed.
    failed: bool,
    // Whether the last failed write met a closed pipe.
    closed: bool,
}

impl<W: Write + Drop> Output<W> {
    /// An output that gathers its bytes in a buffer, where there is memory for one.
    pub fn new(alloc: Global, writer: W) -> Result<Self, AllocError>
        ensures { IfOk result (IsFresh writer) }
    {
        match BufWriter::with_capacity(alloc, BUFFER, writer) {
            Ok(buffer) => Ok(Output {
                buffer,
                failed: false,
                closed: false,
            }),
            Err(_) => Err(AllocError),
        }
    }

    /// Whether the last write that failed met a closed pipe.
    pub fn is_closed(&self) -> bool
        ensures { result ≡ is_closed self.now }
    {
        self.closed
    }

    /// Flushes the buffer.
    pub fn write_out(&mut self) -> Result<(), EndFault>
        ensures { WritesOut W.contents self.old self.new result }
    {
        match self.buffer.flush() {
            Ok(()) => Ok(()),
            Err(e) => Err(self.fail(&e)),
        }
    }

    // Records that a write failed, and whether it met a closed pipe.
    fn fail(&mut self, error: &io::Error) -> EndFault
        ensures { self.new ≡ failed_by self.old error.now }
    {
        self.failed = true;
        self.closed = matches!(error.kind(), ErrorKind::BrokenPipe);
        EndFault
    }
}

impl<W: Write + Drop> HandOn for Output<W> {
    ghost use Rattle.lens_reports.specs.Output.{held_back};

    ghost held = { λ output. held_back output };

    fn hand_on(&mut self) -> Result<(), EndFault> {
        self.write_out()
    }
}

impl<W: Write + Drop> Sink for Output<W> {
    ghost use Rattle.lens_reports.specs.Output.{output_state};

    ghost state = { λ output. output_state W.contents output };

    fn put(&mut self, bytes: &[u8]) -> Result<usize, EndFault> {
        match self.buffer.write(bytes) {
            Ok(count) if count > 0 || bytes.is_empty() => Ok(count),
            Ok(_) => Err(self.fail(&io::Error::from(ErrorKind::WriteZero))),
            Err(e) => Err(self.fail(&e)),
        }
    }

    fn failed(&self) -> bool {
        self.failed
    }
}
