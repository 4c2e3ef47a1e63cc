//! Whether the output is a pipe that nobody reads any more.

use std::cell::Cell;
use std::io;
use std::io::{ErrorKind, Write};

/// A writer that tells a cell when it meets a closed pipe.
#[derive(Drop)]
pub struct Watched<'a, W: Write> {
    writer: W,
    closed: &'a Cell<bool>,
}

impl<'a, W: Write> Watched<'a, W> {
    /// `writer`, which tells `closed`.
    pub fn new(writer: W, closed: &'a Cell<bool>) -> Self {
        Watched { writer, closed }
    }
}

impl<W: Write> Write for Watched<'_, W> {
    fn write(&mut self, bytes: &[u8]) -> io::Result<usize> {
        let written = self.writer.write(bytes);
        note(self.closed, &written);
        written
    }

    fn flush(&mut self) -> io::Result<()> {
        let flushed = self.writer.flush();
        note(self.closed, &flushed);
        flushed
    }
}

// Tells a cell if a call has met a closed pipe.
fn note<T>(closed: &Cell<bool>, answer: &io::Result<T>) {
    if let Err(error) = answer {
        if is_of_closed_pipe(error) {
            closed.set(true);
        }
    }
}

/// Whether an error is that of a pipe that nobody reads.
pub fn is_of_closed_pipe(error: &io::Error) -> bool {
    matches!(error.kind(), ErrorKind::BrokenPipe)
}
