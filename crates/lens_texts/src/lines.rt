//! The lines of a level's report.

ghost use Rattle.std.specs.Prelude.{◌≡◌, ◌+◌, ◌≤◌, ◌++◌, [], false, length};
ghost use Rattle.line_io.specs.Writes.{Writes};
ghost use Rattle.line_io.specs.declared.text_line.TheConstants.{ROOM};
ghost use Rattle.lens_texts.specs.Escape.{escaped};
ghost use Rattle.lens_texts.specs.RemarkLine.{block_text, body_text, heading_text, index_text, lead_text, left_line, level_line, remark_line, remark_words};
ghost use Rattle.le_rec.specs.Name.{shown_name};
ghost use Rattle.lens_texts.specs.FormatLine.{format_text, why_text};
ghost use Rattle.lens_texts.specs.Unread.{NamesLump};
ghost use Rattle.lens_texts.specs.declared.unread.Unread.TheVariants as unread;
ghost use Rattle.lens_texts.specs.Owners.{AreOwners};

use crate::broken::prepend_broken;
use crate::digits::{prepend_count, prepend_short};
use crate::escape::write_escaped;
use crate::form::Form;
use crate::label::{LevelLabel, prepend_label, prepend_name};
use crate::parts::{TextParts, write_parts};
use crate::path::write_after_path;
use crate::place::prepend_place;
use crate::remark::Remark;
use crate::unread::Unread;
use le_rec::Sink;
use level_codes::{Kind, ReportCode};
use line_io::{IoFault, TextLine, emit};
use map_level::{Level, usual_name};
use map_tables::blocks_along;
use node_lumps::Broken;

/// What each line or object of a level begins with: its form, the file's path and the label.
#[derive(Clone, Copy)]
pub struct Heading<'p> {
    pub form: Form,
    pub path: &'p [u8],
    pub label: LevelLabel,
}

/// Writes the line of a remark.
pub fn write_remark_line<W: Sink>(
    heading: &Heading<'_>,
    level: &Level<'_>,
    owners: &[Option<u32>],
    remark: Remark,
    out: &mut W,
) -> Result<(), IoFault>
    requires owners { AreOwners level.now owners.now }
    requires sound { (W.state out.old).failed ≡ false }
    ensures { Writes (W.state out.old) (W.state out.new)
        (remark_line heading.now.path.now heading.now.label level.now remark) result }
{
    let mut lead = TextLine::new();
    prepend_lead(&mut lead, level, remark.code(), remark.index());
    write_heading(heading, out)?;
    emit(out, lead.as_bytes())?;
    write_body(level, owners, remark, out)
}

// Writes `MESSAGE[, PLACE]`, and the line's end.
fn write_body<W: Sink>(
    level: &Level<'_>,
    owners: &[Option<u32>],
    remark: Remark,
    out: &mut W,
) -> Result<(), IoFault>
    requires owners { AreOwners level.now owners.now }
    requires sound { (W.state out.old).failed ≡ false }
    ensures { Writes (W.state out.old) (W.state out.new) (body_text level.now remark) result }
{
    let mut message = TextLine::new();
    remark.prepend_message(&mut message, level);
    let mut place = TextLine::new();
    place.prepend_bytes(b"\n");
    prepend_place(&mut place, remark.place(level, owners));
    write_both(message.as_bytes(), place.as_bytes(), out)
}

/// Writes what the line of a remark says behind the label, as text within XML: `CODE KIND INDEX: MESSAGE[, PLACE]`.
pub fn write_words<W: Sink>(
    level: &Level<'_>,
    owners: &[Option<u32>],
    remark: Remark,
    out: &mut W,
) -> Result<(), IoFault>
    requires owners { AreOwners level.now owners.now }
    requires sound { (W.state out.old).failed ≡ false }
    ensures { Writes (W.state out.old) (W.state out.new) (escaped (remark_words level.now remark)) result }
{
    let mut lead = TextLine::new();
    prepend_lead(&mut lead, level, remark.code(), remark.index());
    let mut message = TextLine::new();
    remark.prepend_message(&mut message, level);
    let mut place = TextLine::new();
    prepend_place(&mut place, remark.place(level, owners));
    let words = Words {
        lead: lead.as_bytes(),
        message: message.as_bytes(),
        place: place.as_bytes(),
    };
    write_parts(&words, out)
}

// What is told of a remark, in its three parts.
#[derive(Drop)]
struct Words<'w> {
    lead: &'w [u8],
    message: &'w [u8],
    place: &'w [u8],
}

impl TextParts for Words<'_> {
    ghost use Rattle.std.specs.Prelude.{[], ◌∷◌};
    ghost use Rattle.lens_texts.specs.Escape.{escaped};

    ghost parts = { λ words. escaped words.lead.now ∷ escaped words.message.now ∷ escaped words.place.now ∷ [] };

    fn count(&self) -> usize {
        3
    }

    fn write<W: Sink>(&self, number: usize, out: &mut W) -> Result<(), IoFault> {
        match number {
            0 => write_escaped(self.lead, out),
            1 => write_escaped(self.message, out),
            _ => write_escaped(self.place, out),
        }
    }
}

/// Writes a line of a level, from a text with the line's end.
pub fn write_line<W: Sink>(heading: &Heading<'_>, text: &[u8], out: &mut W) -> Result<(), IoFault>
    requires { (W.state out.old).failed ≡ false }
    ensures { Writes (W.state out.old) (W.state out.new)
        (level_line heading.now.path.now heading.now.label text.now) result }
{
    write_heading(heading, out)?;
    emit(out, text)
}

/// `PATH: LEVEL: `
pub fn write_heading<W: Sink>(heading: &Heading<'_>, out: &mut W) -> Result<(), IoFault>
    requires { (W.state out.old).failed ≡ false }
    ensures { Writes (W.state out.old) (W.state out.new)
        (heading_text heading.now.path.now heading.now.label) result }
{
    let mut line = TextLine::new();
    line.prepend_bytes(b": ");
    prepend_label(&mut line, &heading.label);
    line.prepend_bytes(b": ");
    write_after_path(heading.path, line.as_bytes(), out)
}

/// Writes one text and another.
pub fn write_both<W: Sink>(first: &[u8], second: &[u8], out: &mut W) -> Result<(), IoFault>
    requires { (W.state out.old).failed ≡ false }
    ensures { Writes (W.state out.old) (W.state out.new) (first.now ++ second.now) result }
{
    emit(out, first)?;
    emit(out, second)
}

/// Writes how many findings, or warnings, of a code are left out.
pub fn write_left_line<W: Sink>(
    heading: &Heading<'_>,
    code: ReportCode,
    left: u64,
    out: &mut W,
) -> Result<(), IoFault>
    requires { (W.state out.old).failed ≡ false }
    ensures { Writes (W.state out.old) (W.state out.new)
        (left_line heading.now.path.now heading.now.label code left) result }
{
    let mut line = TextLine::new();
    line.prepend_bytes(b" more\n");
    line.prepend_natural(left);
    line.prepend_bytes(b": ");
    line.prepend_bytes(code.name());
    write_line(heading, line.as_bytes(), out)
}

/// Writes the line of a level that isn't judged.
pub fn write_format<W: Sink>(
    heading: &Heading<'_>,
    unread: Unread,
    out: &mut W,
) -> Result<(), IoFault>
    requires lump { NamesLump unread }
    requires sound { (W.state out.old).failed ≡ false }
    ensures { Writes (W.state out.old) (W.state out.new)
        (level_line heading.now.path.now heading.now.label (format_text unread)) result }
{
    let mut line = TextLine::new();
    prepend_format(&mut line, unread);
    write_line(heading, line.as_bytes(), out)
}

/// Writes that line without the path and the label before it.
pub fn write_format_alone<W: Sink>(unread: Unread, out: &mut W) -> Result<(), IoFault>
    requires lump { NamesLump unread }
    requires sound { (W.state out.old).failed ≡ false }
    ensures { Writes (W.state out.old) (W.state out.new) (format_text unread) result }
{
    let mut line = TextLine::new();
    prepend_format(&mut line, unread);
    emit(out, line.as_bytes())
}

// Puts the text for a level that isn't judged.
fn prepend_format(line: &mut TextLine, unread: Unread)
    requires lump { NamesLump unread }
    requires empty { line.old ≡ [] }
    ensures text { line.new ≡ format_text unread }
    ensures length { length line.new ≤ 108 }
{
    match unread {
        Unread::Udmf => line.prepend_bytes(b"udmf: not read\n"),
        Unread::Incomplete(k) => prepend_incomplete(line, k as usize),
        Unread::Hexen => line.prepend_bytes(b"hexen: not read\n"),
        Unread::Outside(k) => prepend_outside_file(line, k as usize),
        Unread::Extended(tag, why) => prepend_extended(line, &tag, why),
    }
}

fn prepend_incomplete(line: &mut TextLine, k: usize)
    requires from { 1 ≤ k }
    requires to { k ≤ 10 }
    requires empty { line.old ≡ [] }
    ensures text { line.new ≡ format_text (unread.Incomplete k) }
    ensures length { length line.new ≤ 108 }
{
    line.prepend_bytes(b" where it belongs\n");
    prepend_name(line, usual_name(k));
    line.prepend_bytes(b"incomplete: no ");
}

fn prepend_outside_file(line: &mut TextLine, k: usize)
    requires from { 1 ≤ k }
    requires to { k ≤ 10 }
    requires empty { line.old ≡ [] }
    ensures text { line.new ≡ format_text (unread.Outside k) }
    ensures length { length line.new ≤ 108 }
{
    line.prepend_bytes(b"\n");
    prepend_name(line, usual_name(k));
    line.prepend_bytes(b"outside: ");
}

fn prepend_extended(line: &mut TextLine, tag: &[u8; 4], why: Option<Broken>)
    requires { line.old ≡ [] }
    ensures text { line.new ≡ format_text (unread.Extended tag.now why) }
    ensures length { length line.new ≤ 108 }
{
    line.prepend_bytes(b"\n");
    prepend_why(line, why);
    line.prepend_bytes(b": ");
    line.prepend_bytes(tag);
    line.prepend_bytes(b"extended nodes ");
}

// Puts why extended nodes aren't judged.
fn prepend_why(line: &mut TextLine, why: Option<Broken>)
    requires { length line.old ≤ 1 }
    ensures text { line.new ≡ why_text why ++ line.old }
    ensures length { length line.new ≤ length line.old + 75 }
{
    match why {
        Some(why) => prepend_broken(line, why),
        None => line.prepend_bytes(b"not read"),
    }
}

// `CODE KIND INDEX: `
fn prepend_lead(line: &mut TextLine, level: &Level<'_>, code: ReportCode, index: u32)
    requires { line.old ≡ [] }
    ensures { line.new ≡ lead_text level.now code index }
{
    let kind = code.kind();
    line.prepend_bytes(b": ");
    prepend_index_of(line, level, kind, index);
    line.prepend_bytes(kind.name());
    line.prepend_bytes(b" ");
    line.prepend_bytes(code.name());
}

// The index of what is of a kind.
fn prepend_index_of(line: &mut TextLine, level: &Level<'_>, kind: Kind, index: u32)
    requires { length line.old ≤ 2 }
    ensures text { line.new ≡ index_text level.now kind index line.old }
    ensures length { length line.new ≤ length line.old + 20 }
{
    match kind {
        Kind::Whole => {}
        Kind::Block => prepend_block(line, blocks_along(level.blockmap(), 2), index),
        _ => {
            prepend_count(line, index as usize);
            line.prepend_bytes(b" ");
        }
    }
}

// A block by its column and its row.
fn prepend_block(line: &mut TextLine, columns: u16, index: u32)
    requires { length line.old ≤ 2 }
    ensures text { line.new ≡ block_text columns index line.old }
    ensures length { length line.new ≤ length line.old + 20 }
{
    if columns == 0 {
        return;
    }
    let columns = u32::from(columns);
    line.prepend_bytes(b")");
    prepend_count(line, (index / columns) as usize);
    line.prepend_bytes(b", ");
    prepend_short(line, (index % columns) as u16);
    line.prepend_bytes(b" (");
}
