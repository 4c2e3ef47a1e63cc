//! Items of the page's lists: a number with what it counts, and a code with how many there are of it.

ghost use Rattle.std.specs.Prelude.{◌≡◌, ◌<◌, ◌≤◌, [], false, length};
ghost use Rattle.level_codes.specs.Codes.{code_at};
ghost use Rattle.level_codes.specs.declared.table.TheConstants.{REPORT_COUNT};
ghost use Rattle.line_io.specs.Writes.{Writes};
ghost use Rattle.lens_texts.specs.Parts.{joined};
ghost use Rattle.atlas_page.specs.Items.{code_item, code_items, code_part, number_item, table_items};

use le_rec::Sink;
use lens_engines::{ReportCounts, Tables};
use lens_texts::parts::{TextParts, write_parts};
use level_codes::{REPORT_COUNT, ReportCode};
use line_io::{IoFault, TextLine, emit};

/// Writes a number with what it counts.
pub fn write_number_item<W: Sink>(what: &[u8], number: u64, out: &mut W) -> Result<(), IoFault>
    requires short { length what.now ≤ 16 }
    requires sound { (W.state out.old).failed ≡ false }
    ensures { Writes (W.state out.old) (W.state out.new) (number_item what.now number) result }
{
    let mut line = TextLine::new();
    prepend_number_item(&mut line, what, number);
    emit(out, line.as_bytes())
}

// `<li><b>{number}</b> {what}</li>`
fn prepend_number_item(line: &mut TextLine, what: &[u8], number: u64)
    requires short { length what.now ≤ 16 }
    requires empty { line.old ≡ [] }
    ensures { line.new ≡ number_item what.now number }
{
    line.prepend_bytes(b"</li>\n");
    line.prepend_bytes(what);
    line.prepend_bytes(b"</b> ");
    line.prepend_natural(number);
    line.prepend_bytes(b"<li><b>");
}

// The items of a level's tables.
#[derive(Drop)]
struct TableItems<'t> {
    tables: &'t Tables,
}

impl TextParts for TableItems<'_> {
    ghost use Rattle.atlas_page.specs.Items.{table_items};

    ghost parts = { λ items. table_items items.tables.now };

    fn count(&self) -> usize {
        8
    }

    fn write<W: Sink>(&self, number: usize, out: &mut W) -> Result<(), IoFault> {
        let tables = self.tables;
        match number {
            0 => write_number_item(b"things", tables.things, out),
            1 => write_number_item(b"linedefs", tables.linedefs, out),
            2 => write_number_item(b"sidedefs", tables.sidedefs, out),
            3 => write_number_item(b"vertexes", tables.vertexes, out),
            4 => write_number_item(b"segs", tables.segs, out),
            5 => write_number_item(b"ssectors", tables.ssectors, out),
            6 => write_number_item(b"nodes", tables.nodes, out),
            _ => write_number_item(b"sectors", tables.sectors, out),
        }
    }
}

/// Writes the items of a level's tables.
pub fn write_tables<W: Sink>(tables: &Tables, out: &mut W) -> Result<(), IoFault>
    requires { (W.state out.old).failed ≡ false }
    ensures { Writes (W.state out.old) (W.state out.new) (joined (table_items tables.now)) result }
{
    write_parts(&TableItems { tables }, out)
}

// The items of all codes, each empty if there are none of its code.
#[derive(Drop)]
struct CodeParts<'c> {
    counts: &'c ReportCounts,
}

impl TextParts for CodeParts<'_> {
    ghost use Rattle.std.specs.Prelude.{map};
    ghost use Rattle.atlas_page.specs.Items.{code_part};
    ghost use Rattle.level_codes.specs.Codes.{report_order};

    ghost parts = { λ parts. map (code_part parts.counts.now) report_order };

    fn count(&self) -> usize {
        REPORT_COUNT
    }

    fn write<W: Sink>(&self, number: usize, out: &mut W) -> Result<(), IoFault> {
        write_code_part(self.counts, number, out)
    }
}

// Writes the item of the code of a rank, where there are any.
fn write_code_part<W: Sink>(counts: &ReportCounts, rank: usize, out: &mut W) -> Result<(), IoFault>
    requires there { rank < REPORT_COUNT }
    requires sound { (W.state out.old).failed ≡ false }
    ensures { Writes (W.state out.old) (W.state out.new) (code_part counts.now (code_at rank)) result }
{
    let code = ReportCode::at(rank);
    let count = counts.get(code);
    if count > 0 {
        write_code_item(code, count, out)
    } else {
        emit(out, b"")
    }
}

// Writes the item of a code.
fn write_code_item<W: Sink>(code: ReportCode, count: u64, out: &mut W) -> Result<(), IoFault>
    requires { (W.state out.old).failed ≡ false }
    ensures { Writes (W.state out.old) (W.state out.new) (code_item code count) result }
{
    let mut line = TextLine::new();
    prepend_code_item(&mut line, code, count);
    emit(out, line.as_bytes())
}

// `<li class="{class}">{code} &times; {count}</li>`
fn prepend_code_item(line: &mut TextLine, code: ReportCode, count: u64)
    requires { line.old ≡ [] }
    ensures { line.new ≡ code_item code count }
{
    line.prepend_bytes(b"</li>\n");
    line.prepend_natural(count);
    line.prepend_bytes(b" &times; ");
    line.prepend_bytes(code.name());
    line.prepend_bytes(b"\">");
    line.prepend_bytes(code.class().name());
    line.prepend_bytes(b"<li class=\"");
}

/// Writes the items of the codes of which there are any, in the order of a report.
pub fn write_codes<W: Sink>(counts: &ReportCounts, out: &mut W) -> Result<(), IoFault>
    requires { (W.state out.old).failed ≡ false }
    ensures { Writes (W.state out.old) (W.state out.new) (joined (code_items counts.now)) result }
{
    write_parts(&CodeParts { counts }, out)
}
