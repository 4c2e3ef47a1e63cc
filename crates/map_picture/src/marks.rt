//! The findings of a picture.

ghost use Rattle.std.specs.Prelude.{◌≡◌, List, false};
ghost use Rattle.line_io.specs.Writes.{EndsWriting, Writes};
ghost use Rattle.map_audit.specs.Findings.{AuditHolds};
ghost use Rattle.map_level.specs.Findings.{AreFindings};
ghost use Rattle.map_level.specs.declared.finding.Finding.{Finding};
ghost use Rattle.lens_texts.specs.Escape.{escaped};
ghost use Rattle.map_picture.specs.Head.{without_end};
ghost use Rattle.map_picture.specs.Marks.{code_marks, lone_end, lone_of, mark_line, mark_part, marked_by, marks, shape_of};
ghost use Rattle.look_engines.specs.Engines.Audit.{finding_line};

use crate::counted_level::CountedLevel;
use crate::paths::{Shape, write_shape};
use le_rec::{Sink, Vertex};
use lens_texts::escape::write_escaped;
use lens_texts::parts::{TextParts, write_parts};
use line_io::{IoFault, TextLine, emit};
use look_engines::prepend_finding;
use map_cells::{linedef_ends, seg_ends};
use map_level::links::vertex;
use map_level::search::CODES;
use map_level::{Code, Finding, Level};
use std::alloc::Allocator;

// What a code is found at, of what is drawn.
#[derive(Clone, Copy)]
enum Marked {
    Linedef,
    /// The only end of a linedef that is there.
    LoneEnd,
    Seg,
    Nothing,
}

/// Writes the lines of the findings of linedefs and segs whose two vertexes are there, and of linedefs with one of them. It
/// searches for no other codes.
pub fn write_marks<A: Allocator, W: Sink>(
    counted: &CountedLevel<'_, '_, A>,
    out: &mut W,
) -> Result<(), IoFault>
    requires { (W.state out.old).failed ≡ false }
    ensures ends { EndsWriting (W.state out.new) result }
    ensures text { (found : List Finding) → AreFindings (AuditHolds counted.now) found
        → Writes (W.state out.old) (W.state out.new) (marks counted.now found) result }
{
    'codes: for code in CODES {
        write_code(counted, code, out)?;
    }
    Ok(())
}

// Writes the lines of a code's findings, if they are drawn.
fn write_code<A: Allocator, W: Sink>(
    counted: &CountedLevel<'_, '_, A>,
    code: Code,
    out: &mut W,
) -> Result<(), IoFault>
    requires { (W.state out.old).failed ≡ false }
    ensures ends { EndsWriting (W.state out.new) result }
    ensures text { (found : List Finding) → AreFindings (AuditHolds counted.now) found
        → Writes (W.state out.old) (W.state out.new) (code_marks counted.now code found) result }
{
    match marked_by(code) {
        Marked::Linedef | Marked::LoneEnd | Marked::Seg => write_each(counted, code, out),
        Marked::Nothing => emit(out, b""),
    }
}

// Writes the lines of a code's findings.
fn write_each<A: Allocator, W: Sink>(
    counted: &CountedLevel<'_, '_, A>,
    code: Code,
    out: &mut W,
) -> Result<(), IoFault>
    requires { (W.state out.old).failed ≡ false }
    ensures ends { EndsWriting (W.state out.new) result }
    ensures text { (found : List Finding) → AreFindings (AuditHolds counted.now) found
        → Writes (W.state out.old) (W.state out.new) (code_marks counted.now code found) result }
{
    let level = counted.level();
    let mut from = 0;
    'finds: while let Some(index) = counted.first(code, from) {
        write_part(level, &Finding { code, index }, out)?;
        from = index + 1;
    }
    Ok(())
}

// Writes the line of a finding, if what it was found at can be drawn.
fn write_part<W: Sink>(level: &Level<'_>, finding: &Finding, out: &mut W) -> Result<(), IoFault>
    requires { (W.state out.old).failed ≡ false }
    ensures { Writes (W.state out.old) (W.state out.new) (mark_part level.now finding.now) result }
{
    match shape_of(level, marked_by(finding.code), finding.index as usize) {
        Some(shape) => write_mark(finding, &shape, out),
        None => emit(out, b""),
    }
}

// What a code is found at.
fn marked_by(code: Code) -> Marked
    ensures { result ≡ marked_by code }
{
    match code {
        Code::F3 => Marked::LoneEnd,
        Code::F4 | Code::N3 | Code::N4 | Code::N5 => Marked::Linedef,
        Code::F7 | Code::F8 | Code::F9 => Marked::Seg,
        _ => Marked::Nothing,
    }
}

// What is drawn at what is of a number.
fn shape_of(level: &Level<'_>, marked: Marked, index: usize) -> Option<Shape>
    ensures { result ≡ shape_of level.now marked index }
{
    match marked {
        Marked::Linedef => Some(Shape::Line(linedef_ends(level, index)?)),
        Marked::LoneEnd => Some(Shape::Ring(lone_end(level, index)?)),
        Marked::Seg => Some(Shape::Line(seg_ends(level, index)?)),
        Marked::Nothing => None,
    }
}

// The only end of a linedef that is there.
fn lone_end(level: &Level<'_>, index: usize) -> Option<Vertex>
    ensures { result ≡ lone_end level.now index }
{
    let linedef = level.linedefs().get(index)?;
    lone_of(vertex(level, linedef.v1), vertex(level, linedef.v2))
}

// The only one of two vertexes that is there.
fn lone_of(start: Option<Vertex>, end: Option<Vertex>) -> Option<Vertex>
    ensures { result ≡ lone_of start end }
{
    match (start, end) {
        (Some(lone), None) => Some(lone),
        (None, Some(lone)) => Some(lone),
        (Some(_), Some(_)) | (None, None) => None,
    }
}

// The line of a finding.
#[derive(Drop)]
struct MarkLine<'f> {
    finding: &'f Finding,
    shape: &'f Shape,
}

impl TextParts for MarkLine<'_> {
    ghost use Rattle.std.specs.Prelude.{[], ◌∷◌, codes};
    ghost use Rattle.lens_texts.specs.Escape.{escaped};
    ghost use Rattle.map_picture.specs.Head.{without_end};
    ghost use Rattle.map_picture.specs.Paths.{shape_part};
    ghost use Rattle.look_engines.specs.Engines.Audit.{finding_line};

    ghost parts = { λ mark. shape_part (codes "f") mark.shape.now ∷ escaped (without_end (finding_line mark.finding.now)) ∷ codes "</title></path>\n" ∷ [] };

    fn count(&self) -> usize {
        3
    }

    fn write<W: Sink>(&self, number: usize, out: &mut W) -> Result<(), IoFault> {
        match number {
            0 => write_shape(b"f", self.shape, out),
            1 => write_finding(self.finding, out),
            _ => emit(out, b"</title></path>\n"),
        }
    }
}

// Writes the line of a finding.
fn write_mark<W: Sink>(finding: &Finding, shape: &Shape, out: &mut W) -> Result<(), IoFault>
    requires { (W.state out.old).failed ≡ false }
    ensures { Writes (W.state out.old) (W.state out.new) (mark_line finding.now shape.now) result }
{
    write_parts(&MarkLine { finding, shape }, out)
}

// Writes a finding's line of the audit, without its end.
fn write_finding<W: Sink>(finding: &Finding, out: &mut W) -> Result<(), IoFault>
    requires { (W.state out.old).failed ≡ false }
    ensures { Writes (W.state out.old) (W.state out.new) (escaped (without_end (finding_line finding.now))) result }
{
    let mut line = TextLine::new();
    prepend_finding(&mut line, finding);
    write_escaped(without_end(line.as_bytes()), out)
}

/// A line without its end.
pub fn without_end(line: &[u8]) -> &[u8]
    ensures { result.now ≡ without_end line.now }
{
    &line[..line.len().saturating_sub(1)]
}
