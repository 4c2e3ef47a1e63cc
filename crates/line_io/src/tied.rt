//! An input and an output tied to one another: answers are flushed before each read, which may wait.

ghost use Rattle.std.specs.Prelude.{◌≡◌, IfErr};
ghost use Rattle.line_io.specs.declared.fault.IoFault.TheVariants.{Write as WriteFault};

use crate::fault::IoFault;
use std::alloc::{AllocError, Global};
use std::cell::{Cell, RefCell, RefMut};
use std::io;
use std::io::{BufWriter, Read, Write};

/// The most bytes that a tied output buffers.
pub const BUFFER: usize = 65536;

/// A writer behind a buffer that a reader can flush.
#[derive(Drop)]
pub struct TiedWriter<W: Write + Drop> {
    buffer: RefCell<BufWriter<W>>,
    // Whether a flush has failed.
    failed: Cell<bool>,
}

impl<W: Write + Drop> TiedWriter<W> {
    /// A writer that gathers its bytes in a buffer, where there is memory for one. No clause speaks of what
    /// lies in a cell: tests tell that the buffer is empty and that no flush has failed.
    pub fn new(alloc: Global, writer: W) -> Result<Self, AllocError> {
        match BufWriter::with_capacity(alloc, BUFFER, writer) {
            Ok(buffer) => Ok(TiedWriter {
                buffer: RefCell::new(buffer),
                failed: Cell::new(false),
            }),
            Err(_) => Err(AllocError),
        }
    }

    // The buffer. Nothing else borrows it, as each call ends its own borrow.
    fn buffer(&self) -> io::Result<RefMut<'_, BufWriter<W>>> {
        self.buffer
            .try_borrow_mut()
            .map_err(|_| io::Error::from(io::ErrorKind::ResourceBusy))
    }

    /// Flushes the buffer. `Write` if that fails, or if it failed before, also before a read.
    pub fn close(&self) -> Result<(), IoFault>
        ensures { IfErr result (λ fault. fault ≡ WriteFault) }
    {
        let mut writer = self;
        if self.failed.get() || writer.flush().is_err() {
            return Err(IoFault::Write);
        }
        Ok(())
    }
}

impl<W: Write + Drop> Write for &TiedWriter<W> {
    fn write(&mut self, bytes: &[u8]) -> io::Result<usize> {
        self.buffer()?.write(bytes)
    }

    fn flush(&mut self) -> io::Result<()> {
        let flushed = self.buffer()?.flush();
        if flushed.is_err() {
            self.failed.set(true);
        }
        flushed
    }
}

/// A reader that flushes the writer's buffer before each read.
#[derive(Drop)]
pub struct TiedReader<'a, R: Read, W: Write + Drop> {
    reader: R,
    writer: &'a TiedWriter<W>,
}

impl<'a, R: Read, W: Write + Drop> TiedReader<'a, R, W> {
    ghost use Rattle.line_io.specs.Tied.{tied_reader_of};

    /// A reader that flushes the buffer of `writer` before each read.
    pub fn new(reader: R, writer: &'a TiedWriter<W>) -> Self
        ensures { tied_reader_of result ≡ reader }
    {
        TiedReader { reader, writer }
    }
}

impl<'a, R: Read, W: Write + Drop> Read for TiedReader<'a, R, W> {
    ghost use Rattle.line_io.specs.Tied.{tied_reader_of};

    ghost remaining = { λ tied. R.remaining (tied_reader_of tied) };

    fn read(&mut self, buf: &mut [u8]) -> io::Result<usize> {
        let mut writer = self.writer;
        writer.flush()?;
        self.reader.read(buf)
    }
}
