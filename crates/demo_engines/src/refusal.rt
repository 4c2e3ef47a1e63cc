//! Why a demo isn't read, in words.

ghost use Rattle.std.specs.Prelude.{◌≡◌, ◌+◌, ◌≤◌, ◌++◌, codes, false, length, None};
ghost use Rattle.line_io.specs.Writes.{Writes};
ghost use Rattle.demo_engines.specs.RefusalText.{reason_text, refusal_line};
ghost use Rattle.lens_texts.specs.ShownPath.{shown_path};
ghost use Rattle.demo_engines.specs.Summary.{lump_text};
ghost use Rattle.later_demos.specs.FaultText.{early_text, fault_text};
ghost use Rattle.later_demos.specs.declared.fault.LaterFault.TheVariants as fault;

use crate::summary::{Heading, prepend_lump};
use later_demos::{Engine, LaterFault};
use le_rec::Sink;
use lens_texts::write_path;
use line_io::{IoFault, TextLine, emit};

/// Why a demo isn't read.
#[derive(Clone, Copy, Debug, PartialEq, Eq)]
pub enum DemoRefusal {
    /// Its lump leaves the file.
    Outside,
    /// Its bytes are no demo.
    Unread(LaterFault),
}

/// Writes why a demo file is refused: `wadlens: PATH: empty`.
pub fn write_demo_refusal<W: Sink>(
    path: &[u8],
    fault: LaterFault,
    err: &mut W,
) -> Result<(), IoFault>
    requires { (W.state err.old).failed ≡ false }
    ensures { Writes (W.state err.old) (W.state err.new) (refusal_line path.now None (fault_text fault)) result }
{
    let heading = Heading { path, lump: None };
    write_refused(&heading, DemoRefusal::Unread(fault), err)
}

/// Writes the message about a demo that isn't read.
pub fn write_refused<W: Sink>(
    heading: &Heading<'_>,
    why: DemoRefusal,
    err: &mut W,
) -> Result<(), IoFault>
    requires { (W.state err.old).failed ≡ false }
    ensures { Writes (W.state err.old) (W.state err.new)
        (refusal_line heading.now.path.now heading.now.lump (reason_text why)) result }
{
    let mut line = TextLine::new();
    line.prepend_bytes(b"\n");
    prepend_reason(&mut line, why);
    write_message(heading, &mut line, err)
}

// Writes a message, from its reason and end.
fn write_message<W: Sink>(
    heading: &Heading<'_>,
    line: &mut TextLine,
    err: &mut W,
) -> Result<(), IoFault>
    requires short { length line.old ≤ 100 }
    requires sound { (W.state err.old).failed ≡ false }
    ensures { Writes (W.state err.old) (W.state err.new)
        (codes "wadlens: " ++ (shown_path heading.now.path.now ++ ((codes ": " ++ lump_text heading.now.lump) ++ line.old))) result }
{
    prepend_lump(line, heading.lump);
    line.prepend_bytes(b": ");
    emit(err, b"wadlens: ")?;
    write_path(heading.path, err)?;
    emit(err, line.as_bytes())
}

/// Puts why a demo isn't read before the line.
pub fn prepend_reason(line: &mut TextLine, why: DemoRefusal)
    requires { length line.old ≤ 1 }
    ensures text { line.new ≡ reason_text why ++ line.old }
    ensures length { length line.new ≤ length line.old + 90 }
{
    match why {
        DemoRefusal::Outside => line.prepend_bytes(b"outside its file"),
        DemoRefusal::Unread(fault) => prepend_fault(line, fault),
    }
}

// Puts why bytes are no demo before the line.
fn prepend_fault(line: &mut TextLine, fault: LaterFault)
    requires { length line.old ≤ 1 }
    ensures text { line.new ≡ fault_text fault ++ line.old }
    ensures length { length line.new ≤ length line.old + 90 }
{
    match fault {
        LaterFault::Empty => line.prepend_bytes(b"empty"),
        LaterFault::Version(version) => prepend_version(line, version),
        LaterFault::Dsda(version) => {
            line.prepend_bytes(b"): not read");
            line.prepend_small(version);
            line.prepend_bytes(b"version 255 (DSDA ");
        }
        LaterFault::PrUm => line.prepend_bytes(b"version 255 (PR+UM): not read"),
        LaterFault::Short(size, wanted) => {
            line.prepend_natural(wanted);
            line.prepend_bytes(b" bytes of a header's ");
            line.prepend_natural(size);
        }
        LaterFault::Signature(version, engine) => prepend_signature(line, version, engine),
        LaterFault::Options(count) => {
            line.prepend_bytes(b" compatibility options, 25 are the most");
            line.prepend_small(count);
        }
        LaterFault::NoPlayers => line.prepend_bytes(b"no player in the game"),
        LaterFault::KeyFrame => line.prepend_bytes(b"its key frame isn't whole"),
        LaterFault::NoMarker(place) => {
            line.prepend_bytes(b" on make no whole command");
            line.prepend_natural(place);
            line.prepend_bytes(b"no end marker: the bytes from place ");
        }
    }
}

fn prepend_version(line: &mut TextLine, version: u8)
    requires { length line.old ≤ 1 }
    ensures text { line.new ≡ fault_text (fault.Version version) ++ line.old }
    ensures length { length line.new ≤ length line.old + 40 }
{
    line.prepend_bytes(b": not read");
    prepend_early(line, version);
    line.prepend_small(version);
    line.prepend_bytes(b"version ");
}

// ` (1.2 and before)`, where the byte is a skill.
fn prepend_early(line: &mut TextLine, version: u8)
    requires { length line.old ≤ 20 }
    ensures text { line.new ≡ early_text version ++ line.old }
    ensures length { length line.new ≤ length line.old + 17 }
{
    if version < 5 {
        line.prepend_bytes(b" (1.2 and before)");
    }
}

fn prepend_signature(line: &mut TextLine, version: u8, engine: Engine)
    requires { length line.old ≤ 1 }
    ensures text { line.new ≡ fault_text (fault.Signature version engine) ++ line.old }
    ensures length { length line.new ≤ length line.old + 70 }
{
    line.prepend_bytes(engine.signature_digits().as_bytes());
    line.prepend_bytes(b"): its signature isn't ");
    line.prepend_bytes(engine.name().as_bytes());
    line.prepend_bytes(b" (");
    line.prepend_small(version);
    line.prepend_bytes(b"version ");
}
