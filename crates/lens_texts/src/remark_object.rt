//! The objects of a check, a line each.

ghost use Rattle.std.specs.Prelude.{◌≡◌, ◌+◌, ◌≤◌, ◌++◌, [], codes, decimal, false, length};
ghost use Rattle.line_io.specs.Writes.{Writes};
ghost use Rattle.lens_texts.specs.RemarkObject.{block_member, index_member, kind_member, left_object, object_front};
ghost use Rattle.lens_texts.specs.RemarkObject.{place_member, remark_object, spot_pair, subject_members, told_members, wide_object};
ghost use Rattle.lens_texts.specs.Owners.{AreOwners};

use crate::digits::{prepend_count, prepend_short, prepend_word};
use crate::json_string::write_string;
use crate::level_object::{prepend_number, write_file, write_label};
use crate::lines::Heading;
use crate::place::{MapPlace, Spot};
use crate::remark::Remark;
use le_rec::Sink;
use level_codes::{Kind, ReportCode};
use line_io::{IoFault, TextLine, emit};
use map_level::Level;
use map_tables::blocks_along;

/// Writes what each object of a level begins with.
pub fn write_front<W: Sink>(heading: &Heading<'_>, out: &mut W) -> Result<(), IoFault>
    requires { (W.state out.old).failed ≡ false }
    ensures { Writes (W.state out.old) (W.state out.new) (object_front heading.now.path.now heading.now.label) result }
{
    write_file(heading.path, out)?;
    write_label(&heading.label.name, heading.label.entry, out)
}

/// Writes the object of a remark.
pub fn write_remark_object<W: Sink>(
    heading: &Heading<'_>,
    level: &Level<'_>,
    owners: &[Option<u32>],
    remark: Remark,
    out: &mut W,
) -> Result<(), IoFault>
    requires owners { AreOwners level.now owners.now }
    requires sound { (W.state out.old).failed ≡ false }
    ensures { Writes (W.state out.old) (W.state out.new)
        (remark_object heading.now.path.now heading.now.label level.now remark) result }
{
    let mut members = TextLine::new();
    prepend_members(&mut members, level, remark.code(), remark.index());
    let mut text = TextLine::new();
    remark.prepend_message(&mut text, level);
    let place = remark.place(level, owners);
    write_front(heading, out)?;
    write_told(members.as_bytes(), text.as_bytes(), place, out)
}

/// Writes that the wide reading alone finds the level sound.
pub fn write_wide_object<W: Sink>(heading: &Heading<'_>, out: &mut W) -> Result<(), IoFault>
    requires { (W.state out.old).failed ≡ false }
    ensures { Writes (W.state out.old) (W.state out.new) (wide_object heading.now.path.now heading.now.label) result }
{
    write_front(heading, out)?;
    emit(out, b",\"sound_with_wide\":true}\n")
}

/// Writes how many findings, or warnings, of a code are left out.
pub fn write_left_object<W: Sink>(
    heading: &Heading<'_>,
    code: ReportCode,
    left: u64,
    out: &mut W,
) -> Result<(), IoFault>
    requires { (W.state out.old).failed ≡ false }
    ensures { Writes (W.state out.old) (W.state out.new)
        (left_object heading.now.path.now heading.now.label code left) result }
{
    let mut line = TextLine::new();
    prepend_left(&mut line, left);
    line.prepend_bytes(code.name());
    line.prepend_bytes(b",\"code\":\"");
    write_front(heading, out)?;
    emit(out, line.as_bytes())
}

// `","more":N}`
fn prepend_left(line: &mut TextLine, left: u64)
    requires { line.old ≡ [] }
    ensures text { line.new ≡ codes "\",\"more\":" ++ (decimal left ++ codes "}\n") }
    ensures length { length line.new ≤ 40 }
{
    line.prepend_bytes(b"}\n");
    line.prepend_natural(left);
    line.prepend_bytes(b"\",\"more\":");
}

// Writes members, a message and a place, and an object's end.
fn write_told<W: Sink>(
    members: &[u8],
    text: &[u8],
    place: MapPlace,
    out: &mut W,
) -> Result<(), IoFault>
    requires { (W.state out.old).failed ≡ false }
    ensures { Writes (W.state out.old) (W.state out.new) (members.now ++ told_members text.now place) result }
{
    emit(out, members)?;
    write_message(text, place, out)
}

// Writes a message and a place, and an object's end.
fn write_message<W: Sink>(text: &[u8], place: MapPlace, out: &mut W) -> Result<(), IoFault>
    requires { (W.state out.old).failed ≡ false }
    ensures { Writes (W.state out.old) (W.state out.new) (told_members text.now place) result }
{
    let mut end = TextLine::new();
    end.prepend_bytes(b"}\n");
    prepend_place(&mut end, place);
    emit(out, b",\"message\":")?;
    write_string(text, out)?;
    emit(out, end.as_bytes())
}

// The code, kind and index of a remark.
fn prepend_members(line: &mut TextLine, level: &Level<'_>, code: ReportCode, index: u32)
    requires { line.old ≡ [] }
    ensures { line.new ≡ subject_members level.now code index }
{
    let kind = code.kind();
    prepend_index(line, level, kind, index);
    prepend_kind(line, kind.name());
    line.prepend_bytes(code.name());
    line.prepend_bytes(b",\"code\":\"");
}

// `","kind":"KIND"`
fn prepend_kind(line: &mut TextLine, kind: &[u8])
    requires room { length line.old ≤ 40 }
    requires short { length kind.now ≤ 7 }
    ensures text { line.new ≡ kind_member kind.now line.old }
    ensures length { length line.new ≤ length line.old + 19 }
{
    line.prepend_bytes(b"\"");
    line.prepend_bytes(kind);
    line.prepend_bytes(b"\",\"kind\":\"");
}

// The index of what is of a kind.
fn prepend_index(line: &mut TextLine, level: &Level<'_>, kind: Kind, index: u32)
    requires { line.old ≡ [] }
    ensures text { line.new ≡ index_member level.now kind index }
    ensures length { length line.new ≤ 40 }
{
    match kind {
        Kind::Whole => {}
        Kind::Block => prepend_block(line, blocks_along(level.blockmap(), 2), index),
        _ => prepend_number(line, b"index", u64::from(index)),
    }
}

// A block by its column and its row.
fn prepend_block(line: &mut TextLine, columns: u16, index: u32)
    requires { line.old ≡ [] }
    ensures text { line.new ≡ block_member columns index }
    ensures length { length line.new ≤ 40 }
{
    if columns == 0 {
        return;
    }
    let columns = u32::from(columns);
    line.prepend_bytes(b"]");
    prepend_count(line, (index / columns) as usize);
    line.prepend_bytes(b",");
    prepend_short(line, (index % columns) as u16);
    line.prepend_bytes(b",\"index\":[");
}

// `,"place":{..}`
fn prepend_place(line: &mut TextLine, place: MapPlace)
    requires { length line.old ≤ 2 }
    ensures { line.new ≡ place_member place line.old }
{
    match place {
        MapPlace::Nowhere => {}
        MapPlace::At(spot) => {
            line.prepend_bytes(b"}");
            prepend_spot(line, &spot);
            line.prepend_bytes(b",\"place\":{\"at\":");
        }
        MapPlace::Between(from, to) => {
            line.prepend_bytes(b"}");
            prepend_spot(line, &to);
            line.prepend_bytes(b",\"to\":");
            prepend_spot(line, &from);
            line.prepend_bytes(b",\"place\":{\"from\":");
        }
        MapPlace::OfLinedef(linedef) => {
            line.prepend_bytes(b"}");
            prepend_count(line, linedef as usize);
            line.prepend_bytes(b",\"place\":{\"linedef\":");
        }
    }
}

// `[X,Y]`
fn prepend_spot(line: &mut TextLine, spot: &Spot)
    requires { length line.old ≤ 40 }
    ensures text { line.new ≡ spot_pair spot.now line.old }
    ensures length { length line.new ≤ length line.old + 15 }
{
    line.prepend_bytes(b"]");
    prepend_word(line, &spot.y);
    line.prepend_bytes(b",");
    prepend_word(line, &spot.x);
    line.prepend_bytes(b"[");
}
