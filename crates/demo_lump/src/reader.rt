//! A demo read from a source, piece by piece.

ghost use Rattle.std.specs.Prelude.{◌≡◌, ◌≤◌, true, false, Option, Some, None, Ok, Err, IfSome};
ghost use Rattle.demo_lump.specs.DemoReader.{ReadsBoth, ReadsHeader, ReadsNext, ReadsRest, Repeats};

use crate::command::Command;
use crate::fault::StreamFault;
use crate::header::Header;
use crate::intake::{Intake, MAX_READ};
use crate::piece::{read_command, read_header};
use le_rec::Source;
use std::marker::Model;

/// Reads a demo from a source piece by piece, up to a limit. It pulls only the bytes that the next
/// piece needs, the header or a command, and pulls those after the marker only in `after`. Once a
/// call of `header`, `next` or `after` has returned a fault, each later call returns that fault.
///
/// One source serves all calls. It hasn't failed before the first fault.
#[derive(Drop)]
pub struct DemoReader {
    intake: Intake,
    header: Option<Header>,
    ended: bool,
    counted: Option<u64>,
    fault: Option<StreamFault>,
}

impl Model for DemoReader {
    ghost use Rattle.std.specs.Prelude.{◌≡◌, ◌≤◌, None};
    ghost use Rattle.demo_lump.specs.DemoReader as reader;

    ghost Value = { reader.DemoReader };

    ghost view = { λ r. record {
      limit = r.intake.limit;
      taken = r.intake.taken;
      header = r.header;
      ended = r.ended;
      counted = r.counted;
      fault = r.fault;
    } };

    ghost invariant = { λ r. r.fault ≡ None → r.intake.taken ≤ r.intake.limit };
}

impl DemoReader {
    /// A reader of a demo of at most `limit` bytes, which is at most 268,435,456. It takes at most
    /// one byte past the limit, and then returns `TooLong`.
    pub fn new(limit: u64) -> DemoReader
        requires { limit ≤ MAX_READ }
        ensures { result ≡ record {
          limit = limit;
          taken = 0;
          header = None;
          ended = false;
          counted = None;
          fault = None;
        } }
    {
        DemoReader {
            intake: Intake { limit, taken: 0 },
            header: None,
            ended: false,
            counted: None,
            fault: None,
        }
    }

    /// Whether the marker was read.
    pub fn ended(&self) -> bool
        ensures { result ≡ self.now.ended }
    {
        self.ended
    }

    /// The header. It is read only once.
    pub fn header<S: Source>(&mut self, source: &mut S) -> Result<Header, StreamFault>
        requires { self.old.fault ≡ None → (S.state source.old).failed ≡ false }
        ensures again { IfSome self.old.fault (λ fault.
            Repeats (Err fault) source.old source.new self.old self.new result) }
        ensures known { self.old.fault ≡ None → IfSome self.old.header (λ header.
            Repeats (Ok header) source.old source.new self.old self.new result) }
        ensures first { self.old.fault ≡ None → self.old.header ≡ None
            → ReadsHeader (S.state source.old) (S.state source.new) self.old self.new result }
        ensures sound { self.new.fault ≡ None → (S.state source.new).failed ≡ false }
    {
        if let Some(fault) = self.fault {
            return Err(fault);
        }
        if let Some(header) = self.header {
            return Ok(header);
        }
        let read = read_header(&mut self.intake, source);
        match read {
            Ok(header) => self.header = Some(header),
            Err(fault) => self.fault = Some(fault),
        }
        read
    }

    // The next command, or None for the marker.
    fn command<S: Source>(
        &mut self,
        version: u8,
        source: &mut S,
    ) -> Result<Option<Command>, StreamFault>
        requires going { self.old.fault ≡ None }
        requires sound { (S.state source.old).failed ≡ false }
        ensures { ReadsNext version
            (S.state source.old) (S.state source.new) self.old self.new result }
    {
        let read = read_command(version, &mut self.intake, source);
        match read {
            Ok(None) => self.ended = true,
            Ok(Some(_)) => {}
            Err(fault) => self.fault = Some(fault),
        }
        read
    }

    /// The next command, or None at the marker and from then on. If the header wasn't read yet, it
    /// is read first.
    pub fn next<S: Source>(&mut self, source: &mut S) -> Result<Option<Command>, StreamFault>
        requires { self.old.fault ≡ None → (S.state source.old).failed ≡ false }
        ensures again { IfSome self.old.fault (λ fault.
            Repeats (Err fault) source.old source.new self.old self.new result) }
        ensures over { self.old.fault ≡ None → self.old.ended ≡ true
            → Repeats (Ok None) source.old source.new self.old self.new result }
        ensures known { self.old.fault ≡ None → self.old.ended ≡ false
            → IfSome self.old.header (λ header.
            ReadsNext header.version
            (S.state source.old) (S.state source.new) self.old self.new result) }
        ensures first { self.old.fault ≡ None → self.old.ended ≡ false → self.old.header ≡ None
            → ReadsBoth (S.state source.old) (S.state source.new) self.old self.new result }
        ensures sound { self.new.fault ≡ None → (S.state source.new).failed ≡ false }
    {
        if let Some(fault) = self.fault {
            return Err(fault);
        }
        if self.ended {
            return Ok(None);
        }
        let version = match self.header {
            Some(header) => header.version,
            None => self.header(source)?.version,
        };
        self.command(version, source)
    }

    /// The number of bytes after the marker, once that was read. The first call pulls and counts
    /// them, up to the input's end.
    pub fn after<S: Source>(&mut self, source: &mut S) -> Result<u64, StreamFault>
        requires ended { self.old.ended ≡ true }
        requires sound { self.old.fault ≡ None → (S.state source.old).failed ≡ false }
        ensures again { IfSome self.old.fault (λ fault.
            Repeats (Err fault) source.old source.new self.old self.new result) }
        ensures known { self.old.fault ≡ None → IfSome self.old.counted (λ n.
            Repeats (Ok n) source.old source.new self.old self.new result) }
        ensures first { self.old.fault ≡ None → self.old.counted ≡ None
            → ReadsRest (S.state source.old) (S.state source.new) self.old self.new result }
        ensures sound { self.new.fault ≡ None → (S.state source.new).failed ≡ false }
    {
        if let Some(fault) = self.fault {
            return Err(fault);
        }
        if let Some(count) = self.counted {
            return Ok(count);
        }
        let read = self.intake.rest(source);
        match read {
            Ok(count) => self.counted = Some(count),
            Err(fault) => self.fault = Some(fault),
        }
        read
    }
}
