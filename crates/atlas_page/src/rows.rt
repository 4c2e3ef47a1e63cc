//! The rows of the page, each with its level's picture.

ghost use Rattle.std.specs.Prelude.{◌≡◌, false};
ghost use Rattle.line_io.specs.Writes.{Writes};
ghost use Rattle.atlas_page.specs.Rows.{faulty_rows, found_part, mark, other_rows, picture_part, row_part, sound_item};

use crate::items::{write_codes, write_tables};
use crate::messages::write_messages;
use crate::picture_name::write_picture_name;
use crate::row::Row;
use crate::text::{write_name, write_number, write_page_path};
use le_rec::Sink;
use lens_engines::{LevelCounts, Surveyed, Unjudged, Verdict};
use lens_texts::parts::{TextParts, write_parts};
use lens_texts::{format_name, write_format_alone};
use line_io::{IoFault, emit};

// A picture within a link to it.
#[derive(Drop)]
struct PictureLink<'r, 'p> {
    row: &'r Row<'p>,
}

impl TextParts for PictureLink<'_, '_> {
    ghost use Rattle.atlas_page.specs.Rows.{link_parts};

    ghost parts = { λ link. link_parts link.row.now };

    fn count(&self) -> usize {
        7
    }

    fn write<W: Sink>(&self, number: usize, out: &mut W) -> Result<(), IoFault> {
        match number {
            0 => emit(out, b"<a class=\"map\" href=\""),
            1 => write_picture_name(self.row.file, self.row.entry, out),
            2 => emit(out, b"\"><img loading=\"lazy\" src=\""),
            3 => write_picture_name(self.row.file, self.row.entry, out),
            4 => emit(out, b"\" alt=\"map of "),
            5 => write_name(&self.row.name, out),
            _ => emit(out, b"\"></a>\n"),
        }
    }
}

// Writes the picture of a row, or that there is none.
fn write_picture<W: Sink>(row: &Row<'_>, out: &mut W) -> Result<(), IoFault>
    requires { (W.state out.old).failed ≡ false }
    ensures { Writes (W.state out.old) (W.state out.new) (picture_part row.now) result }
{
    if row.found.is_drawn() {
        write_parts(&PictureLink { row }, out)
    } else {
        emit(out, b"<p class=\"map\">no picture</p>\n")
    }
}

// Where a level lies.
#[derive(Drop)]
struct WhereLine<'r, 'p> {
    row: &'r Row<'p>,
}

impl TextParts for WhereLine<'_, '_> {
    ghost use Rattle.atlas_page.specs.Rows.{where_parts};

    ghost parts = { λ line. where_parts line.row.now };

    fn count(&self) -> usize {
        7
    }

    fn write<W: Sink>(&self, number: usize, out: &mut W) -> Result<(), IoFault> {
        match number {
            0 => emit(out, b"<p class=\"where\">"),
            1 => write_page_path(self.row.path, out),
            2 => emit(out, b" <span>entry "),
            3 => write_number(self.row.entry, out),
            4 => emit(out, b", "),
            5 => emit(out, format_name(self.row.found.format())),
            _ => emit(out, b"</span></p>\n"),
        }
    }
}

// Writes `sound`, where nothing fails.
fn write_sound<W: Sink>(judged: &LevelCounts, out: &mut W) -> Result<(), IoFault>
    requires { (W.state out.old).failed ≡ false }
    ensures { Writes (W.state out.old) (W.state out.new) (sound_item judged.now) result }
{
    match judged.verdict() {
        Verdict::Faulty => emit(out, b""),
        Verdict::Clean | Verdict::Unjudged => emit(out, b"<li class=\"sound\">sound</li>\n"),
    }
}

// What was found at a level of Doom's format, warnings too, with its first messages, and how large its tables are.
#[derive(Drop)]
struct JudgedParts<'r> {
    judged: &'r LevelCounts,
    messages: &'r [u8],
}

impl TextParts for JudgedParts<'_> {
    ghost use Rattle.atlas_page.specs.Rows.{judged_parts};

    ghost parts = { λ parts. judged_parts parts.judged.now parts.messages.now };

    fn count(&self) -> usize {
        8
    }

    fn write<W: Sink>(&self, number: usize, out: &mut W) -> Result<(), IoFault> {
        match number {
            0 => emit(out, b"<ul class=\"found\">\n"),
            1 => write_sound(self.judged, out),
            2 => write_codes(&self.judged.counts, out),
            3 => emit(out, b"</ul>\n"),
            4 => write_messages(self.messages, out),
            5 => emit(out, b"<ul class=\"counts\">\n"),
            6 => write_tables(&self.judged.tables, out),
            _ => emit(out, b"</ul>\n"),
        }
    }
}

// Why a level isn't judged.
#[derive(Drop)]
struct UnjudgedParts<'r> {
    unjudged: &'r Unjudged,
}

impl TextParts for UnjudgedParts<'_> {
    ghost use Rattle.atlas_page.specs.Rows.{unjudged_parts};

    ghost parts = { λ parts. unjudged_parts parts.unjudged.now.unread };

    fn count(&self) -> usize {
        3
    }

    fn write<W: Sink>(&self, number: usize, out: &mut W) -> Result<(), IoFault> {
        match number {
            0 => emit(out, b"<p class=\"told\">"),
            1 => write_format_alone(self.unjudged.unread(), out),
            _ => emit(out, b"</p>\n"),
        }
    }
}

// Writes what was found at a level.
fn write_found<W: Sink>(found: &Surveyed, messages: &[u8], out: &mut W) -> Result<(), IoFault>
    requires { (W.state out.old).failed ≡ false }
    ensures { Writes (W.state out.old) (W.state out.new) (found_part found.now messages.now) result }
{
    match found {
        Surveyed::Judged(judged) => write_parts(&JudgedParts { judged, messages }, out),
        Surveyed::Unjudged(unjudged) => write_parts(&UnjudgedParts { unjudged }, out),
    }
}

// How a row is marked.
fn mark(verdict: Verdict) -> &'static [u8]
    ensures { result.now ≡ mark verdict }
{
    match verdict {
        Verdict::Clean => b"sound",
        Verdict::Unjudged => b"unread",
        Verdict::Faulty => b"faulty",
    }
}

#[derive(Drop)]
struct RowParts<'r, 'p> {
    row: &'r Row<'p>,
}

impl TextParts for RowParts<'_, '_> {
    ghost use Rattle.atlas_page.specs.Rows.{row_parts};

    ghost parts = { λ parts. row_parts parts.row.now };

    fn count(&self) -> usize {
        10
    }

    fn write<W: Sink>(&self, number: usize, out: &mut W) -> Result<(), IoFault> {
        match number {
            0 => emit(out, b"<li class=\""),
            1 => emit(out, mark(self.row.found.totals().verdict())),
            2 => emit(out, b"\">\n"),
            3 => write_picture(self.row, out),
            4 => emit(out, b"<div>\n<h2>"),
            5 => write_name(&self.row.name, out),
            6 => emit(out, b"</h2>\n"),
            7 => write_parts(&WhereLine { row: self.row }, out),
            8 => write_found(&self.row.found, self.row.messages.items(), out),
            _ => emit(out, b"</div>\n</li>\n"),
        }
    }
}

// Rows of one kind: those with a fault, or the others.
#[derive(Drop)]
struct RowsOf<'r, 'p> {
    rows: &'r [Row<'p>],
    faulty: bool,
}

impl TextParts for RowsOf<'_, '_> {
    ghost use Rattle.std.specs.Prelude.{map};
    ghost use Rattle.atlas_page.specs.Rows.{row_part};

    ghost parts = { λ parts. map (row_part parts.faulty) parts.rows.now };

    fn count(&self) -> usize {
        self.rows.len()
    }

    fn write<W: Sink>(&self, number: usize, out: &mut W) -> Result<(), IoFault> {
        write_row(&self.rows[number], self.faulty, out)
    }
}

// Writes a row, if it is of the kind.
fn write_row<W: Sink>(row: &Row<'_>, faulty: bool, out: &mut W) -> Result<(), IoFault>
    requires { (W.state out.old).failed ≡ false }
    ensures { Writes (W.state out.old) (W.state out.new) (row_part faulty row.now) result }
{
    if row.is_faulty() == faulty {
        write_parts(&RowParts { row }, out)
    } else {
        emit(out, b"")
    }
}

/// Writes the rows of the levels with a fault, in their order.
pub fn write_faulty<W: Sink>(rows: &[Row<'_>], out: &mut W) -> Result<(), IoFault>
    requires { (W.state out.old).failed ≡ false }
    ensures { Writes (W.state out.old) (W.state out.new) (faulty_rows rows.now) result }
{
    let parts = RowsOf { rows, faulty: true };
    write_parts(&parts, out)
}

/// Writes the rows of the others, in their order.
pub fn write_others<W: Sink>(rows: &[Row<'_>], out: &mut W) -> Result<(), IoFault>
    requires { (W.state out.old).failed ≡ false }
    ensures { Writes (W.state out.old) (W.state out.new) (other_rows rows.now) result }
{
    let parts = RowsOf {
        rows,
        faulty: false,
    };
    write_parts(&parts, out)
}
