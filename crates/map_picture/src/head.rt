//! What a picture begins with.

ghost use Rattle.std.specs.Prelude.{◌≡◌, ◌<◌, ◌+◌, ◌≤◌, ◌++◌, [], false, length, slice_index_or, unsigned_abs};
ghost use Rattle.std.specs.Fmt.{decimal};
ghost use Rattle.line_io.specs.Writes.{Writes};
ghost use Rattle.lens_texts.specs.Escape.{escaped};
ghost use Rattle.map_picture.specs.Head.{ground_line, label_name, longer_side, pixels, size_text, style_line, svg_line, title_of, view_text, without_end};
ghost use Rattle.look_engines.specs.Engines.Audit.{totals_line};

use crate::finding_counts::FindingCounts;
use crate::marks::without_end;
use crate::window::Window;
use crate::word::prepend_number;
use le_rec::Sink;
use lens_texts::escape::write_escaped;
use lens_texts::parts::{TextParts, write_parts};
use line_io::{IoFault, TextLine, emit};
use look_engines::prepend_totals;
use map_level::Level;

const STYLE: &[u8] =
    b"<style>svg{background:#14161a}path{vector-effect:non-scaling-stroke}.s{shape-rendering:crispEdges}.s path:hover{fill:#fb5}.w{fill:none;stroke:#eee;stroke-width:1.5}.t{fill:none;stroke:#778;stroke-width:.7}.f{fill:none;stroke:#f33;stroke-width:4}.a{fill:none;stroke:#fb3;stroke-width:3}.p{vector-effect:none;stroke:#14161a;stroke-width:5;paint-order:stroke}.start{fill:#6f6}.monster{fill:#f7b}.weapon{fill:#5cf}.key{fill:#ff5}.other{fill:#cba}.p:hover{fill:#fff}</style>\n";

// How many pixels the longer side of a picture has by itself.
const LONGEST: u64 = 1024;

/// Writes the line of the window: the part of the map, and how large the picture is by itself.
pub fn write_svg<W: Sink>(window: &Window, out: &mut W) -> Result<(), IoFault>
    requires { (W.state out.old).failed ≡ false }
    ensures { Writes (W.state out.old) (W.state out.new) (svg_line window.now) result }
{
    write_view(window, out)?;
    write_size(window, out)
}

fn write_view<W: Sink>(window: &Window, out: &mut W) -> Result<(), IoFault>
    requires { (W.state out.old).failed ≡ false }
    ensures { Writes (W.state out.old) (W.state out.new) (view_text window.now) result }
{
    let mut line = TextLine::new();
    prepend_view(&mut line, window);
    emit(out, line.as_bytes())
}

fn write_size<W: Sink>(window: &Window, out: &mut W) -> Result<(), IoFault>
    requires { (W.state out.old).failed ≡ false }
    ensures { Writes (W.state out.old) (W.state out.new) (size_text window.now) result }
{
    let mut line = TextLine::new();
    prepend_size(&mut line, window);
    emit(out, line.as_bytes())
}

// ` width="{pixels}" height="{pixels}">`
fn prepend_size(line: &mut TextLine, window: &Window)
    requires { line.old ≡ [] }
    ensures { line.new ≡ size_text window.now }
{
    let longer = longer_side(window);
    line.prepend_bytes(b"\">\n");
    prepend_pixels(line, longer, &window.height);
    line.prepend_bytes(b"\" height=\"");
    prepend_pixels(line, longer, &window.width);
    line.prepend_bytes(b" width=\"");
}

// Puts before the line how many pixels a side has.
fn prepend_pixels(line: &mut TextLine, longer: u32, side: &i32)
    requires { length line.old + 20 ≤ 144 }
    ensures text { line.new ≡ decimal (pixels longer (unsigned_abs side.now)) ++ line.old }
    ensures length { length line.new ≤ length line.old + 20 }
{
    line.prepend_natural(pixels(longer, side.unsigned_abs()));
}

// A window's longer side.
fn longer_side(window: &Window) -> u32
    ensures { result ≡ longer_side window.now }
{
    window
        .width
        .unsigned_abs()
        .max(window.height.unsigned_abs())
}

// How many pixels a side has, if the longer one has `LONGEST`.
fn pixels(longer: u32, side: u32) -> u64
    ensures { result ≡ pixels longer side }
{
    (u64::from(side) * LONGEST).div_ceil(u64::from(longer.max(1)))
}

// `<svg .. viewBox="{left} {top} {width} {height}"`
fn prepend_view(line: &mut TextLine, window: &Window)
    requires { line.old ≡ [] }
    ensures { line.new ≡ view_text window.now }
{
    line.prepend_bytes(b"\"");
    prepend_number(line, &window.height);
    line.prepend_bytes(b" ");
    prepend_number(line, &window.width);
    line.prepend_bytes(b" ");
    prepend_number(line, &window.top);
    line.prepend_bytes(b" ");
    prepend_number(line, &window.left);
    line.prepend_bytes(b"<svg xmlns=\"http://www.w3.org/2000/svg\" viewBox=\"");
}

#[derive(Drop)]
struct TitleLine<'l, 'a> {
    level: &'l Level<'a>,
    counts: FindingCounts,
}

impl TextParts for TitleLine<'_, '_> {
    ghost use Rattle.std.specs.Prelude.{[], ◌∷◌, codes};
    ghost use Rattle.lens_texts.specs.Escape.{escaped};
    ghost use Rattle.map_picture.specs.Head.{label_name, without_end};
    ghost use Rattle.look_engines.specs.Engines.Audit.{totals_line};

    ghost parts = { λ line. codes "<title>" ∷ escaped (label_name line.level.now) ∷ codes ": "
        ∷ escaped (without_end (totals_line line.counts.faults line.counts.notes)) ∷ codes "</title>\n" ∷ [] };

    fn count(&self) -> usize {
        5
    }

    fn write<W: Sink>(&self, number: usize, out: &mut W) -> Result<(), IoFault> {
        match number {
            0 => emit(out, b"<title>"),
            1 => write_label(self.level, out),
            2 => emit(out, b": "),
            3 => write_totals(self.counts, out),
            _ => emit(out, b"</title>\n"),
        }
    }
}

/// Writes the title: the level's name, and how many findings it has.
pub fn write_title<W: Sink>(
    level: &Level<'_>,
    counts: FindingCounts,
    out: &mut W,
) -> Result<(), IoFault>
    requires { (W.state out.old).failed ≡ false }
    ensures { Writes (W.state out.old) (W.state out.new) (title_of level.now counts) result }
{
    write_parts(&TitleLine { level, counts }, out)
}

// Writes the label's name as it is shown.
fn write_label<W: Sink>(level: &Level<'_>, out: &mut W) -> Result<(), IoFault>
    requires { (W.state out.old).failed ≡ false }
    ensures { Writes (W.state out.old) (W.state out.new) (escaped (label_name level.now)) result }
{
    let mut text = [0; 32];
    let len = level.name(0).shown(&mut text);
    write_escaped(&text[..len], out)
}

// Writes the last line of the audit, without its end.
fn write_totals<W: Sink>(counts: FindingCounts, out: &mut W) -> Result<(), IoFault>
    requires { (W.state out.old).failed ≡ false }
    ensures { Writes (W.state out.old) (W.state out.new)
        (escaped (without_end (totals_line counts.faults counts.notes))) result }
{
    let mut line = TextLine::new();
    prepend_totals(&mut line, counts.faults, counts.notes);
    write_escaped(without_end(line.as_bytes()), out)
}

/// Writes the style sheet.
pub fn write_style<W: Sink>(out: &mut W) -> Result<(), IoFault>
    requires { (W.state out.old).failed ≡ false }
    ensures { Writes (W.state out.old) (W.state out.new) style_line result }
{
    emit(out, STYLE)
}

/// Writes the ground, which fills all of the picture.
pub fn write_ground<W: Sink>(window: &Window, out: &mut W) -> Result<(), IoFault>
    requires { (W.state out.old).failed ≡ false }
    ensures { Writes (W.state out.old) (W.state out.new) (ground_line window.now) result }
{
    let mut line = TextLine::new();
    prepend_ground(&mut line, window);
    emit(out, line.as_bytes())
}

// `<rect x="{left}" y="{top}" width="{width}" height="{height}" fill="#14161a"/>`
fn prepend_ground(line: &mut TextLine, window: &Window)
    requires { line.old ≡ [] }
    ensures { line.new ≡ ground_line window.now }
{
    line.prepend_bytes(b"\" fill=\"#14161a\"/>\n");
    prepend_number(line, &window.height);
    line.prepend_bytes(b"\" height=\"");
    prepend_number(line, &window.width);
    line.prepend_bytes(b"\" width=\"");
    prepend_number(line, &window.top);
    line.prepend_bytes(b"\" y=\"");
    prepend_number(line, &window.left);
    line.prepend_bytes(b"<rect x=\"");
}
