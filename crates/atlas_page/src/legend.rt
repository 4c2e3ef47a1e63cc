//! The legend of the page: what each code means that is found at some level.

ghost use Rattle.std.specs.Prelude.{◌≡◌, ◌<◌, false, filter, map};
ghost use Rattle.level_codes.specs.Codes.{code_at, report_order};
ghost use Rattle.level_codes.specs.declared.table.TheConstants.{REPORT_COUNT};
ghost use Rattle.line_io.specs.Writes.{Writes};
ghost use Rattle.lens_texts.specs.Parts.{joined};
ghost use Rattle.atlas_page.specs.Legend.{found_has, is_found, legend_code, legend_item, legend_part};

use crate::row::Row;
use le_rec::Sink;
use lens_engines::Surveyed;
use lens_texts::parts::{TextParts, write_parts};
use level_codes::{REPORT_COUNT, ReportCode};
use line_io::{IoFault, emit};

// The items of all codes, each empty if its code isn't found.
#[derive(Drop)]
struct LegendCodes<'r, 'p> {
    rows: &'r [Row<'p>],
}

impl TextParts for LegendCodes<'_, '_> {
    ghost use Rattle.std.specs.Prelude.{map};
    ghost use Rattle.atlas_page.specs.Legend.{legend_code};
    ghost use Rattle.level_codes.specs.Codes.{report_order};

    ghost parts = { λ codes. map (legend_code codes.rows.now) report_order };

    fn count(&self) -> usize {
        REPORT_COUNT
    }

    fn write<W: Sink>(&self, number: usize, out: &mut W) -> Result<(), IoFault> {
        write_code(self.rows, number, out)
    }
}

// Writes the item of the code of a rank, if it is found.
fn write_code<W: Sink>(rows: &[Row<'_>], rank: usize, out: &mut W) -> Result<(), IoFault>
    requires there { rank < REPORT_COUNT }
    requires sound { (W.state out.old).failed ≡ false }
    ensures { Writes (W.state out.old) (W.state out.new) (legend_code rows.now (code_at rank)) result }
{
    let code = ReportCode::at(rank);
    if is_found(rows, code) {
        write_parts(&LegendItem { code }, out)
    } else {
        emit(out, b"")
    }
}

// Whether a code is found at some level.
fn is_found(rows: &[Row<'_>], code: ReportCode) -> bool
    ensures { result ≡ is_found rows.now code }
{
    for row in rows {
        if has_code(&row.found, code) {
            return true;
        }
    }
    false
}

// Whether a code is found at a level.
fn has_code(found: &Surveyed, code: ReportCode) -> bool
    ensures { result ≡ found_has code found.now }
{
    match found {
        Surveyed::Judged(judged) => judged.counts.get(code) > 0,
        Surveyed::Unjudged(_) => false,
    }
}

// The item of a code.
#[derive(Drop)]
struct LegendItem {
    code: ReportCode,
}

impl TextParts for LegendItem {
    ghost use Rattle.atlas_page.specs.Legend.{legend_parts};

    ghost parts = { λ item. legend_parts item.code };

    fn count(&self) -> usize {
        7
    }

    fn write<W: Sink>(&self, number: usize, out: &mut W) -> Result<(), IoFault> {
        let code = self.code;
        match number {
            0 => emit(out, b"<li class=\""),
            1 => emit(out, code.class().name()),
            2 => emit(out, b"\"><b>"),
            3 => emit(out, code.name()),
            4 => emit(out, b"</b> "),
            5 => emit(out, code.meaning()),
            _ => emit(out, b"</li>\n"),
        }
    }
}

#[derive(Drop)]
struct LegendParts<'r, 'p> {
    rows: &'r [Row<'p>],
}

impl TextParts for LegendParts<'_, '_> {
    ghost use Rattle.std.specs.Prelude.{[], ◌∷◌, codes, filter, map};
    ghost use Rattle.atlas_page.specs.Legend.{is_found, legend_item};
    ghost use Rattle.level_codes.specs.Codes.{report_order};
    ghost use Rattle.lens_texts.specs.Parts.{joined};

    ghost parts = { λ parts. codes "<ul class=\"legend\">\n"
        ∷ joined (map legend_item (filter (is_found parts.rows.now) report_order)) ∷ codes "</ul>\n" ∷ [] };

    fn count(&self) -> usize {
        3
    }

    fn write<W: Sink>(&self, number: usize, out: &mut W) -> Result<(), IoFault> {
        match number {
            0 => emit(out, b"<ul class=\"legend\">\n"),
            1 => write_found(self.rows, out),
            _ => emit(out, b"</ul>\n"),
        }
    }
}

// Writes the items of the codes that are found.
fn write_found<W: Sink>(rows: &[Row<'_>], out: &mut W) -> Result<(), IoFault>
    requires { (W.state out.old).failed ≡ false }
    ensures { Writes (W.state out.old) (W.state out.new) (joined (map legend_item (filter (is_found rows.now) report_order))) result }
{
    write_parts(&LegendCodes { rows }, out)
}

/// Writes what each code means that is found at some level.
pub fn write_legend<W: Sink>(rows: &[Row<'_>], out: &mut W) -> Result<(), IoFault>
    requires { (W.state out.old).failed ≡ false }
    ensures { Writes (W.state out.old) (W.state out.new) (legend_part rows.now) result }
{
    write_parts(&LegendParts { rows }, out)
}
