//! How lines and rings are drawn.

ghost use Rattle.std.specs.Prelude.{◌≡◌, ◌+◌, ◌≤◌, false, length};
ghost use Rattle.line_io.specs.Writes.{Writes};
ghost use Rattle.map_picture.specs.Paths.{path_text, ring_text, shape_part, shape_text};

use crate::word::prepend_word;
use le_rec::{Sink, Vertex};
use line_io::{IoFault, TextLine, emit};
use map_cells::Ends;

/// What is drawn at a place.
#[derive(Clone, Copy)]
pub enum Shape {
    /// A line between two vertexes.
    Line(Ends),
    /// A ring about one.
    Ring(Vertex),
}

/// Puts `M{ax} {ay}L{bx} {by}` before the line; it needs 88 bytes of room.
pub fn prepend_path(line: &mut TextLine, ends: &Ends)
    requires { length line.old ≤ 56 }
    ensures text { line.new ≡ path_text ends.now line.old }
    ensures length { length line.new ≤ length line.old + 88 }
{
    prepend_word(line, &ends.to.y);
    line.prepend_bytes(b" ");
    prepend_word(line, &ends.to.x);
    line.prepend_bytes(b"L");
    prepend_word(line, &ends.from.y);
    line.prepend_bytes(b" ");
    prepend_word(line, &ends.from.x);
    line.prepend_bytes(b"M");
}

// Puts a ring before the line; it needs 84 bytes of room.
fn prepend_ring(line: &mut TextLine, at: &Vertex)
    requires { length line.old ≤ 56 }
    ensures text { line.new ≡ ring_text at.now line.old }
    ensures length { length line.new ≤ length line.old + 88 }
{
    line.prepend_bytes(b"m-24 0a24 24 0 1 0 48 0a24 24 0 1 0-48 0");
    prepend_word(line, &at.y);
    line.prepend_bytes(b" ");
    prepend_word(line, &at.x);
    line.prepend_bytes(b"M");
}

// Puts a line or a ring before the line; it needs 88 bytes of room.
fn prepend_shape(line: &mut TextLine, shape: &Shape)
    requires { length line.old ≤ 56 }
    ensures text { line.new ≡ shape_text shape.now line.old }
    ensures length { length line.new ≤ length line.old + 88 }
{
    match shape {
        Shape::Line(ends) => prepend_path(line, ends),
        Shape::Ring(at) => prepend_ring(line, at),
    }
}

/// Writes what a mark begins with, up to its title: `<path class="{class}" d="{shape}"><title>`.
pub fn write_shape<W: Sink>(class: &[u8], shape: &Shape, out: &mut W) -> Result<(), IoFault>
    requires short { length class.now ≤ 8 }
    requires sound { (W.state out.old).failed ≡ false }
    ensures { Writes (W.state out.old) (W.state out.new) (shape_part class.now shape.now) result }
{
    let mut line = TextLine::new();
    line.prepend_bytes(b"\"><title>");
    prepend_shape(&mut line, shape);
    line.prepend_bytes(b"\" d=\"");
    line.prepend_bytes(class);
    line.prepend_bytes(b"<path class=\"");
    emit(out, line.as_bytes())
}
