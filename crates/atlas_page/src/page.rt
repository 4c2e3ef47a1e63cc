//! The page of an atlas.

ghost use Rattle.std.specs.Prelude.{◌≡◌, [], false};
ghost use Rattle.line_io.specs.Writes.{Writes};
ghost use Rattle.lens_texts.specs.Parts.{joined};
ghost use Rattle.atlas_page.specs.Page.{day_part, day_parts, head_parts, page_text, title_counts, total_items, unlooked_part, warned_item};
ghost use Rattle.atlas_page.specs.Rows.{totals_of_rows};

use crate::items::write_number_item;
use crate::legend::write_legend;
use crate::refused::{RefusedFile, write_refused};
use crate::row::Row;
use crate::rows::{write_faulty, write_others};
use crate::style::write_style;
use crate::text::write_page_path;
use le_rec::Sink;
use lens_engines::{Totals, Unlisted, Warnings};
use lens_texts::parts::{TextParts, write_parts};
use line_io::{IoFault, TextLine, emit};

/// What a page is headed with.
#[derive(Clone, Copy)]
pub struct PageHead<'h> {
    /// The title. It needn't be text.
    pub title: &'h [u8],
    /// The day as the caller writes it; empty if none is shown.
    pub day: &'h [u8],
}

/// What a page shows.
#[derive(Clone, Copy)]
pub struct Page<'r, 'p> {
    pub head: &'r PageHead<'p>,
    /// How many files there are, the refused ones too.
    pub files: u64,
    /// Whether warnings were asked for, and how grave they are.
    pub warnings: Warnings,
    /// Their levels, in order.
    pub rows: &'r [Row<'p>],
    /// The files that are refused, in order.
    pub refused: &'r [RefusedFile<'p>],
}

// The totals of all levels.
fn totals_of(rows: &[Row<'_>]) -> Totals
    ensures { result ≡ totals_of_rows rows.now }
{
    let mut sum = Totals::none();
    for row in rows {
        sum = sum.with(row.found.totals());
    }
    sum
}

// Writes how many levels there are in how many files, and the title's end.
fn write_counts<W: Sink>(files: u64, totals: &Totals, out: &mut W) -> Result<(), IoFault>
    requires { (W.state out.old).failed ≡ false }
    ensures { Writes (W.state out.old) (W.state out.new) (title_counts files totals.now) result }
{
    let mut line = TextLine::new();
    prepend_counts(&mut line, files, totals);
    emit(out, line.as_bytes())
}

// `: {levels} levels in {files} files</title>`
fn prepend_counts(line: &mut TextLine, files: u64, totals: &Totals)
    requires { line.old ≡ [] }
    ensures { line.new ≡ title_counts files totals.now }
{
    line.prepend_bytes(b" files</title>\n");
    line.prepend_natural(files);
    line.prepend_bytes(b" levels in ");
    line.prepend_natural(totals.levels);
    line.prepend_bytes(b": ");
}

// Writes the day, if it is shown.
fn write_day<W: Sink>(day: &[u8], out: &mut W) -> Result<(), IoFault>
    requires { (W.state out.old).failed ≡ false }
    ensures { Writes (W.state out.old) (W.state out.new) (day_part day.now) result }
{
    if day.len() == 0 {
        return emit(out, b"");
    }
    write_parts(&DayParts { day }, out)
}

// The day.
#[derive(Drop)]
struct DayParts<'d> {
    day: &'d [u8],
}

impl TextParts for DayParts<'_> {
    ghost use Rattle.atlas_page.specs.Page.{day_parts};

    ghost parts = { λ parts. day_parts parts.day.now };

    fn count(&self) -> usize {
        3
    }

    fn write<W: Sink>(&self, number: usize, out: &mut W) -> Result<(), IoFault> {
        match number {
            0 => emit(out, b"<p class=\"day\">"),
            1 => write_page_path(self.day, out),
            _ => emit(out, b"</p>\n"),
        }
    }
}

// The totals of the page.
#[derive(Drop)]
struct TotalItems {
    files: u64,
    warnings: Warnings,
    totals: Totals,
}

impl TextParts for TotalItems {
    ghost use Rattle.atlas_page.specs.Page.{total_items};

    ghost parts = { λ items. total_items items.files items.warnings items.totals };

    fn count(&self) -> usize {
        6
    }

    fn write<W: Sink>(&self, number: usize, out: &mut W) -> Result<(), IoFault> {
        let totals = &self.totals;
        match number {
            0 => write_number_item(b"levels", totals.levels, out),
            1 => write_number_item(b"files", self.files, out),
            2 => write_number_item(b"faults", totals.faults, out),
            3 => write_number_item(b"notes", totals.notes, out),
            4 => write_warned(self.warnings, totals.warnings, out),
            _ => {
                let unjudged = totals.broken.saturating_add(totals.unread);
                write_number_item(b"not judged", unjudged, out)
            }
        }
    }
}

// Writes how many warnings there are, where they are asked for.
fn write_warned<W: Sink>(warnings: Warnings, count: u64, out: &mut W) -> Result<(), IoFault>
    requires { (W.state out.old).failed ≡ false }
    ensures { Writes (W.state out.old) (W.state out.new) (warned_item warnings count) result }
{
    match warnings {
        Warnings::Unasked => emit(out, b""),
        Warnings::Told => write_number_item(b"warnings", count, out),
    }
}

// Writes which warnings weren't looked for at some level, and how to have them looked for.
fn write_unlooked<W: Sink>(unlisted: Unlisted, out: &mut W) -> Result<(), IoFault>
    requires { (W.state out.old).failed ≡ false }
    ensures { Writes (W.state out.old) (W.state out.new) (unlooked_part unlisted) result }
{
    if unlisted.is_none() {
        return emit(out, b"");
    }
    emit(out, b"<p class=\"unlooked\">")?;
    unlisted.write_note(out)?;
    emit(out, b"</p>\n")
}

// What stands above the levels.
#[derive(Drop)]
struct HeadParts<'r, 'p> {
    page: &'r Page<'r, 'p>,
    items: TotalItems,
}

impl TextParts for HeadParts<'_, '_> {
    ghost use Rattle.atlas_page.specs.Page.{head_parts};

    ghost parts = { λ parts. head_parts parts.page.now.head.now parts.items.files parts.items.warnings parts.page.now.rows.now parts.items.totals };

    fn count(&self) -> usize {
        14
    }

    fn write<W: Sink>(&self, number: usize, out: &mut W) -> Result<(), IoFault> {
        let page = self.page;
        match number {
            0 => emit(
                out,
                b"<!DOCTYPE html>\n<html lang=\"en\">\n<head>\n<meta charset=\"utf-8\">\n<meta name=\"viewport\" content=\"width=device-width, initial-scale=1\">\n",
            ),
            1 => emit(out, b"<title>"),
            2 => write_page_path(page.head.title, out),
            3 => write_counts(self.items.files, &self.items.totals, out),
            4 => write_style(out),
            5 => emit(out, b"</head>\n<body>\n<header>\n<h1>"),
            6 => write_page_path(page.head.title, out),
            7 => emit(out, b"</h1>\n"),
            8 => write_day(page.head.day, out),
            9 => emit(out, b"<ul class=\"totals\">\n"),
            10 => write_parts(&self.items, out),
            11 => emit(out, b"</ul>\n"),
            12 => write_unlooked(self.items.totals.unlisted, out),
            _ => write_legend(page.rows, out),
        }
    }
}

// The refused files, and the levels.
#[derive(Drop)]
struct BodyParts<'r, 'p> {
    page: &'r Page<'r, 'p>,
}

impl TextParts for BodyParts<'_, '_> {
    ghost use Rattle.atlas_page.specs.Page.{body_parts};

    ghost parts = { λ parts. body_parts parts.page.now.rows.now parts.page.now.refused.now };

    fn count(&self) -> usize {
        5
    }

    fn write<W: Sink>(&self, number: usize, out: &mut W) -> Result<(), IoFault> {
        match number {
            0 => write_refused(self.page.refused, out),
            1 => emit(out, b"</header>\n<main>\n<ol>\n"),
            2 => write_faulty(self.page.rows, out),
            3 => write_others(self.page.rows, out),
            _ => emit(out, b"</ol>\n</main>\n</body>\n</html>\n"),
        }
    }
}

#[derive(Drop)]
struct PageParts<'r, 'p> {
    page: &'r Page<'r, 'p>,
}

impl TextParts for PageParts<'_, '_> {
    ghost use Rattle.atlas_page.specs.Page.{page_parts};

    ghost parts = { λ parts. page_parts parts.page.now.head.now parts.page.now.files parts.page.now.warnings parts.page.now.rows.now parts.page.now.refused.now };

    fn count(&self) -> usize {
        2
    }

    fn write<W: Sink>(&self, number: usize, out: &mut W) -> Result<(), IoFault> {
        match number {
            0 => write_head(self.page, out),
            _ => write_parts(&BodyParts { page: self.page }, out),
        }
    }
}

// Writes what stands above the levels.
fn write_head<W: Sink>(page: &Page<'_, '_>, out: &mut W) -> Result<(), IoFault>
    requires { (W.state out.old).failed ≡ false }
    ensures { Writes (W.state out.old) (W.state out.new) (joined (head_parts page.now.head.now page.now.files page.now.warnings page.now.rows.now (totals_of_rows page.now.rows.now))) result }
{
    let totals = totals_of(page.rows);
    let items = TotalItems {
        files: page.files,
        warnings: page.warnings,
        totals,
    };
    write_parts(&HeadParts { page, items }, out)
}

/// Writes the page of an atlas. It takes no memory. `Write` comes if the sink fails; a front of the text was
/// taken.
pub fn write_page<W: Sink>(page: &Page<'_, '_>, out: &mut W) -> Result<(), IoFault>
    requires { (W.state out.old).failed ≡ false }
    ensures { Writes (W.state out.old) (W.state out.new) (page_text page.now.head.now page.now.files page.now.warnings page.now.rows.now page.now.refused.now) result }
{
    write_parts(&PageParts { page }, out)
}
