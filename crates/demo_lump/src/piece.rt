//! The pieces of a demo, read one after another.

ghost use Rattle.std.specs.Prelude.{◌≡◌, ◌≤◌, false};
ghost use Rattle.demo_lump.specs.NextPiece.{header_piece, next_piece};
ghost use Rattle.demo_lump.specs.Reads.{Reads};

use crate::command::{Command, MARKER, command_from, size_of_command};
use crate::fault::{DemoFault, StreamFault};
use crate::header::{HEADER, Header, is_version, read_fields};
use crate::intake::Intake;
use le_rec::Source;

/// Reads the header.
pub(crate) fn read_header<S: Source>(
    intake: &mut Intake,
    source: &mut S,
) -> Result<Header, StreamFault>
    requires sound { (S.state source.old).failed ≡ false }
    requires within { intake.old.taken ≤ intake.old.limit }
    ensures limit { intake.new.limit ≡ intake.old.limit }
    ensures reads { Reads header_piece intake.old.limit (S.state source.old) (S.state source.new)
        intake.old.taken intake.new.taken result }
{
    let Some(version) = intake.byte(source)? else {
        return Err(StreamFault::Demo(DemoFault::Empty));
    };
    if !is_version(version) {
        return Err(StreamFault::Demo(DemoFault::Version(version)));
    }
    let mut rest = [0; HEADER - 1];
    if !intake.fill(source, &mut rest)? {
        return Err(StreamFault::Demo(DemoFault::ShortHeader));
    }
    match read_fields(version, &rest) {
        Ok(header) => Ok(header),
        Err(fault) => Err(StreamFault::Demo(fault)),
    }
}

/// Reads the next command, or the marker.
pub(crate) fn read_command<S: Source>(
    version: u8,
    intake: &mut Intake,
    source: &mut S,
) -> Result<Option<Command>, StreamFault>
    requires sound { (S.state source.old).failed ≡ false }
    requires within { intake.old.taken ≤ intake.old.limit }
    ensures limit { intake.new.limit ≡ intake.old.limit }
    ensures reads { Reads (next_piece version intake.old.taken) intake.old.limit
        (S.state source.old) (S.state source.new) intake.old.taken intake.new.taken result }
{
    let place = intake.taken;
    let Some(first) = intake.byte(source)? else {
        return Err(StreamFault::Demo(DemoFault::NoMarker(place)));
    };
    if first == MARKER {
        return Ok(None);
    }
    let mut block = [0; 4];
    let rest = &mut block[..size_of_command(version) - 1];
    if !intake.fill(source, rest)? {
        return Err(StreamFault::Demo(DemoFault::NoMarker(place)));
    }
    Ok(Some(command_from(version, first, rest)))
}
