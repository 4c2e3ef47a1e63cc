//! The marks of warnings.

ghost use Rattle.std.specs.Prelude.{◌≡◌, [], false};
ghost use Rattle.line_io.specs.Writes.{Writes};
ghost use Rattle.map_picture.specs.WarningMarks.{game_shape, linedef_line, thing_ring, vertex_ring, warning_line, warning_marks, warning_part};
ghost use Rattle.map_picture.specs.WarningMarks.{warning_shape, warning_title};

use crate::paths::{Shape, write_shape};
use game_warnings::GameWarning;
use le_rec::{Sink, Vertex};
use lens_texts::parts::{TextParts, write_parts};
use level_codes::ReportCode;
use line_io::{IoFault, TextLine, emit};
use map_cells::linedef_ends;
use map_level::Level;
use map_warnings::Warning;

#[derive(Drop)]
struct WarningLines<'l, 'a> {
    level: &'l Level<'a>,
    marked: &'l [Warning],
}

impl TextParts for WarningLines<'_, '_> {
    ghost use Rattle.std.specs.Prelude.{map};
    ghost use Rattle.map_picture.specs.WarningMarks.{warning_part};

    ghost parts = { λ lines. map (warning_part lines.level.now) lines.marked.now };

    fn count(&self) -> usize {
        self.marked.len()
    }

    fn write<W: Sink>(&self, number: usize, out: &mut W) -> Result<(), IoFault> {
        write_part(self.level, self.marked[number], out)
    }
}

/// Writes the lines of warnings.
pub fn write_warning_marks<W: Sink>(
    level: &Level<'_>,
    marked: &[Warning],
    out: &mut W,
) -> Result<(), IoFault>
    requires { (W.state out.old).failed ≡ false }
    ensures { Writes (W.state out.old) (W.state out.new) (warning_marks level.now marked.now) result }
{
    write_parts(&WarningLines { level, marked }, out)
}

// Writes the line of a warning, if what it is of can be drawn.
fn write_part<W: Sink>(level: &Level<'_>, warning: Warning, out: &mut W) -> Result<(), IoFault>
    requires { (W.state out.old).failed ≡ false }
    ensures { Writes (W.state out.old) (W.state out.new) (warning_part level.now warning) result }
{
    match warning_shape(level, warning) {
        Some(shape) => write_warning(warning, &shape, out),
        None => emit(out, b""),
    }
}

// What is drawn at a warning.
fn warning_shape(level: &Level<'_>, warning: Warning) -> Option<Shape>
    ensures { result ≡ warning_shape level.now warning }
{
    match warning {
        Warning::Unclosed { vertex, .. } => vertex_ring(level, vertex),
        Warning::Bare { linedef, .. } | Warning::Twin { linedef, .. } => {
            linedef_line(level, linedef)
        }
        Warning::InVoid { thing } | Warning::UnknownThing { thing } => thing_ring(level, thing),
        Warning::Game(told) => game_shape(level, told),
        Warning::Untagged { .. }
        | Warning::Mismatched { .. }
        | Warning::NoStart { .. }
        | Warning::FewStarts { .. }
        | Warning::UnknownTexture { .. }
        | Warning::UnknownFlat { .. } => None,
    }
}

// What is drawn at what the game does.
fn game_shape(level: &Level<'_>, told: GameWarning) -> Option<Shape>
    ensures { result ≡ game_shape level.now told }
{
    match told {
        GameWarning::UnknownSpecial { linedef }
        | GameWarning::ZeroTag { linedef, .. }
        | GameWarning::NeverCrossed { linedef, .. }
        | GameWarning::NoDestination { linedef }
        | GameWarning::OneSidedDoor { linedef }
        | GameWarning::ManyPlatforms { linedef, .. }
        | GameWarning::ManyCeilings { linedef, .. }
        | GameWarning::Harmful { linedef, .. } => linedef_line(level, linedef),
        GameWarning::EndsThings { thing, .. }
        | GameWarning::InNoSkill { thing }
        | GameWarning::NoTarget { thing, .. }
        | GameWarning::ManyTargets { thing, .. } => thing_ring(level, thing),
        GameWarning::DeadlyFloor { .. }
        | GameWarning::NoExit
        | GameWarning::Locked { .. }
        | GameWarning::ManyScrolling { .. }
        | GameWarning::ManyPerpetual { .. }
        | GameWarning::ManyStarts { .. }
        | GameWarning::LongSave { .. }
        | GameWarning::LacksPatch { .. }
        | GameWarning::MisplacedFlat { .. } => None,
    }
}

// A ring about the vertex of a number.
fn vertex_ring(level: &Level<'_>, vertex: u32) -> Option<Shape>
    ensures { result ≡ vertex_ring level.now vertex }
{
    Some(Shape::Ring(level.vertexes().get(vertex as usize)?))
}

// A ring about the thing of a number.
fn thing_ring(level: &Level<'_>, thing: u32) -> Option<Shape>
    ensures { result ≡ thing_ring level.now thing }
{
    let thing = level.things().get(thing as usize)?;
    Some(Shape::Ring(Vertex {
        x: thing.x,
        y: thing.y,
    }))
}

// The line of the linedef of a number.
fn linedef_line(level: &Level<'_>, linedef: u32) -> Option<Shape>
    ensures { result ≡ linedef_line level.now linedef }
{
    Some(Shape::Line(linedef_ends(level, linedef as usize)?))
}

// The line of a warning.
#[derive(Drop)]
struct WarningLine<'s> {
    warning: Warning,
    shape: &'s Shape,
}

impl TextParts for WarningLine<'_> {
    ghost use Rattle.std.specs.Prelude.{[], ◌∷◌, codes};
    ghost use Rattle.map_picture.specs.Paths.{shape_part};
    ghost use Rattle.map_picture.specs.WarningMarks.{warning_title};

    ghost parts = { λ line. shape_part (codes "a") line.shape.now ∷ warning_title line.warning ∷ [] };

    fn count(&self) -> usize {
        2
    }

    fn write<W: Sink>(&self, number: usize, out: &mut W) -> Result<(), IoFault> {
        match number {
            0 => write_shape(b"a", self.shape, out),
            _ => write_title(self.warning, out),
        }
    }
}

// Writes the line of a warning.
fn write_warning<W: Sink>(warning: Warning, shape: &Shape, out: &mut W) -> Result<(), IoFault>
    requires { (W.state out.old).failed ≡ false }
    ensures { Writes (W.state out.old) (W.state out.new) (warning_line warning shape.now) result }
{
    write_parts(&WarningLine { warning, shape }, out)
}

// Writes what the table of codes says of a warning, and the line's end.
fn write_title<W: Sink>(warning: Warning, out: &mut W) -> Result<(), IoFault>
    requires { (W.state out.old).failed ≡ false }
    ensures { Writes (W.state out.old) (W.state out.new) (warning_title warning) result }
{
    let mut line = TextLine::new();
    prepend_title(&mut line, warning);
    emit(out, line.as_bytes())
}

// `{code} {number} {text}</title></path>`
fn prepend_title(line: &mut TextLine, warning: Warning)
    requires { line.old ≡ [] }
    ensures { line.new ≡ warning_title warning }
{
    let code = ReportCode::Warning(warning.code());
    line.prepend_bytes(b"</title></path>\n");
    line.prepend_bytes(code.text());
    line.prepend_bytes(b" ");
    line.prepend_natural(u64::from(warning.number()));
    line.prepend_bytes(b" ");
    line.prepend_bytes(code.name());
}
