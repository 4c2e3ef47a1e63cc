//! The linedefs of a picture.

ghost use Rattle.std.specs.Prelude.{◌≡◌, ◌<◌, false, length, slice_index_or, []};
ghost use Rattle.line_io.specs.Writes.{Writes};
ghost use Rattle.map_picture.specs.Lines.{has_back, line_class, line_part, linedef_path, lines_line};

use crate::paths::prepend_path;
use le_rec::{LineDef, Sink};
use lens_texts::parts::{TextParts, write_parts};
use line_io::{IoFault, TextLine, emit};
use map_cells::linedef_ends;
use map_level::Level;

// The linedefs of one kind: those with two sides, or the others.
#[derive(Drop)]
struct LinePaths<'l, 'a> {
    level: &'l Level<'a>,
    two_sided: bool,
}

impl TextParts for LinePaths<'_, '_> {
    ghost use Rattle.map_picture.specs.Lines.{line_part};
    ghost use Rattle.lens_texts.specs.Parts.{numbered};

    ghost parts = { λ lines. numbered (line_part lines.level.now lines.two_sided) 0 lines.level.now.linedefs.records };

    fn count(&self) -> usize {
        self.level.linedefs().len()
    }

    fn write<W: Sink>(&self, number: usize, out: &mut W) -> Result<(), IoFault> {
        let linedef = self.level.linedefs().at(number);
        write_part(self.level, self.two_sided, number, &linedef, out)
    }
}

// Writes the path of a linedef, if it is of the kind.
fn write_part<W: Sink>(
    level: &Level<'_>,
    two_sided: bool,
    number: usize,
    linedef: &LineDef,
    out: &mut W,
) -> Result<(), IoFault>
    requires { (W.state out.old).failed ≡ false }
    ensures { Writes (W.state out.old) (W.state out.new) (line_part level.now two_sided number linedef.now) result }
{
    if has_back(linedef) == two_sided {
        write_path(level, number, out)
    } else {
        emit(out, b"")
    }
}

// Whether a linedef has a word for its back.
fn has_back(linedef: &LineDef) -> bool
    ensures { result ≡ has_back linedef.now }
{
    linedef.side1 != -1
}

// Writes the path of a linedef, if its vertexes are there.
fn write_path<W: Sink>(level: &Level<'_>, number: usize, out: &mut W) -> Result<(), IoFault>
    requires { (W.state out.old).failed ≡ false }
    ensures { Writes (W.state out.old) (W.state out.new) (linedef_path level.now number) result }
{
    let mut line = TextLine::new();
    if let Some(ends) = linedef_ends(level, number) {
        prepend_path(&mut line, &ends);
    }
    emit(out, line.as_bytes())
}

// The path of all linedefs of one kind.
#[derive(Drop)]
struct LinesLine<'l, 'a> {
    paths: LinePaths<'l, 'a>,
}

impl TextParts for LinesLine<'_, '_> {
    ghost use Rattle.std.specs.Prelude.{[], ◌∷◌, codes};
    ghost use Rattle.map_picture.specs.Lines.{line_class, line_part};
    ghost use Rattle.lens_texts.specs.Parts.{joined, numbered};

    ghost parts = { λ line. line_class line.paths.two_sided
        ∷ joined (numbered (line_part line.paths.level.now line.paths.two_sided) 0 line.paths.level.now.linedefs.records) ∷ codes "\"/>\n" ∷ [] };

    fn count(&self) -> usize {
        3
    }

    fn write<W: Sink>(&self, number: usize, out: &mut W) -> Result<(), IoFault> {
        match number {
            0 => emit(out, line_class(self.paths.two_sided)),
            1 => write_parts(&self.paths, out),
            _ => emit(out, b"\"/>\n"),
        }
    }
}

// What the path of a kind begins with.
fn line_class(two_sided: bool) -> &'static [u8]
    ensures { result.now ≡ line_class two_sided }
{
    if two_sided {
        b"<path class=\"t\" d=\""
    } else {
        b"<path class=\"w\" d=\""
    }
}

/// Writes the path of the linedefs with two sides, or of the others.
pub fn write_lines<W: Sink>(level: &Level<'_>, two_sided: bool, out: &mut W) -> Result<(), IoFault>
    requires { (W.state out.old).failed ≡ false }
    ensures { Writes (W.state out.old) (W.state out.new) (lines_line level.now two_sided) result }
{
    let paths = LinePaths { level, two_sided };
    write_parts(&LinesLine { paths }, out)
}
