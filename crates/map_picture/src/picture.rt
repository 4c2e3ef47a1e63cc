//! The lines of a picture, one after another.

ghost use Rattle.std.specs.Prelude.{◌≡◌, ◌+◌, ◌≤◌, ◌++◌, List, [], codes, false, length, neg_ℤ};
ghost use Rattle.std.specs.Fmt.{signed_decimal};
ghost use Rattle.line_io.specs.Writes.{Writes};
ghost use Rattle.map_picture.specs.Head.{ground_line, svg_line};
ghost use Rattle.map_audit.specs.Findings.{AuditHolds};
ghost use Rattle.map_level.specs.Findings.{AreFindings};
ghost use Rattle.map_level.specs.declared.finding.Finding.{Finding};
ghost use Rattle.lens_texts.specs.Parts.{joined};
ghost use Rattle.map_picture.specs.Picture.{WritesPicture, cells_line, found_parts, map_text, sector_lines, sector_part, units_line};
ghost use Rattle.map_picture.specs.Window.{window_of};

use crate::counted_level::CountedLevel;
use crate::finding_counts::FindingCounts;
use crate::head::{write_ground, write_style, write_svg, write_title};
use crate::lines::write_lines;
use crate::marks::write_marks;
use crate::sectors::{SectorCells, write_sector};
use crate::things::write_things;
use crate::warning_marks::write_warning_marks;
use crate::window::window_of;
use crate::word::prepend_word;
use le_rec::Sink;
use lens_texts::parts::{TextParts, write_parts};
use line_io::{IoFault, TextLine, emit};
use map_cells::Frame;
use map_level::Level;
use map_warnings::Warning;
use std::alloc::Allocator;

/// What is drawn besides a level's own lines.
#[derive(Clone, Copy)]
pub struct Drawn<'p, 'b> {
    /// The part of the map that is drawn in cells.
    pub frame: Frame,
    /// How many map units a cell is wide and high.
    pub size: u32,
    /// The sectors that cells show, ascending.
    pub shown: &'p [SectorCells<'b>],
    /// The warnings that are marked. One of another code than `MarkedWarnings` has is passed over.
    pub marked: &'p [Warning],
}

// The lines up to the linedefs.
#[derive(Drop)]
struct MapLines<'p, 'a, 'b> {
    level: &'p Level<'a>,
    counts: FindingCounts,
    drawn: &'p Drawn<'p, 'b>,
}

impl TextParts for MapLines<'_, '_, '_> {
    ghost use Rattle.map_picture.specs.Head.{title_of};
    ghost use Rattle.map_picture.specs.Picture.{map_parts};

    ghost parts = { λ lines. map_parts lines.level.now (title_of lines.level.now lines.counts) lines.drawn.now.frame
        lines.drawn.now.size lines.drawn.now.shown.now };

    fn count(&self) -> usize {
        9
    }

    fn write<W: Sink>(&self, number: usize, out: &mut W) -> Result<(), IoFault> {
        match number {
            0 => write_view(self.drawn.frame, out),
            1 => write_title(self.level, self.counts, out),
            2 => write_style(out),
            3 => write_backdrop(self.drawn.frame, out),
            4 => write_cells(self.drawn.frame, self.drawn.size, out),
            5 => write_sectors(self.level, self.drawn.shown, out),
            6 => write_units(out),
            7 => write_lines(self.level, true, out),
            _ => write_lines(self.level, false, out),
        }
    }
}

// The lines behind the findings.
#[derive(Drop)]
struct LastLines<'p, 'a> {
    level: &'p Level<'a>,
    marked: &'p [Warning],
}

impl TextParts for LastLines<'_, '_> {
    ghost use Rattle.map_picture.specs.Picture.{last_parts};

    ghost parts = { λ lines. last_parts lines.level.now lines.marked.now };

    fn count(&self) -> usize {
        3
    }

    fn write<W: Sink>(&self, number: usize, out: &mut W) -> Result<(), IoFault> {
        match number {
            0 => write_warning_marks(self.level, self.marked, out),
            1 => write_things(self.level, out),
            _ => write_end(out),
        }
    }
}

/// Writes the picture of a level with its findings: the sectors that cells show, by their blocks, the linedefs, the findings of
/// linedefs and segs, the warnings that are marked, and the things. `Write` where the sink fails: a front of the text was taken.
pub fn write_picture<A: Allocator, W: Sink>(
    counted: &CountedLevel<'_, '_, A>,
    drawn: &Drawn<'_, '_>,
    out: &mut W,
) -> Result<(), IoFault>
    requires { (W.state out.old).failed ≡ false }
    ensures { WritesPicture counted.now drawn.now.frame drawn.now.size drawn.now.shown.now drawn.now.marked.now
        (W.state out.old) (W.state out.new) result }
{
    write_map(counted.level(), counted.counts(), drawn, out)?;
    write_found(counted, drawn.marked, out)
}

// Writes the lines up to the linedefs.
fn write_map<W: Sink>(
    level: &Level<'_>,
    counts: FindingCounts,
    drawn: &Drawn<'_, '_>,
    out: &mut W,
) -> Result<(), IoFault>
    requires { (W.state out.old).failed ≡ false }
    ensures { Writes (W.state out.old) (W.state out.new)
        (map_text level.now counts drawn.now.frame drawn.now.size drawn.now.shown.now) result }
{
    let lines = MapLines {
        level,
        counts,
        drawn,
    };
    write_parts(&lines, out)
}

// Writes the lines from the findings on.
fn write_found<A: Allocator, W: Sink>(
    counted: &CountedLevel<'_, '_, A>,
    marked: &[Warning],
    out: &mut W,
) -> Result<(), IoFault>
    requires { (W.state out.old).failed ≡ false }
    ensures { (found : List Finding) → AreFindings (AuditHolds counted.now) found
        → Writes (W.state out.old) (W.state out.new) (joined (found_parts counted.now found marked.now)) result }
{
    write_marks(counted, out)?;
    let level = counted.level();
    write_parts(&LastLines { level, marked }, out)
}

// Writes the lines of the sectors that are shown.
fn write_sectors<W: Sink>(
    level: &Level<'_>,
    shown: &[SectorCells<'_>],
    out: &mut W,
) -> Result<(), IoFault>
    requires { (W.state out.old).failed ≡ false }
    ensures { Writes (W.state out.old) (W.state out.new) (sector_lines level.now shown.now) result }
{
    write_parts(&SectorLines { level, shown }, out)
}

// Writes that what follows is in map units.
fn write_units<W: Sink>(out: &mut W) -> Result<(), IoFault>
    requires { (W.state out.old).failed ≡ false }
    ensures { Writes (W.state out.old) (W.state out.new) units_line result }
{
    emit(out, b"</g><g transform=\"matrix(1 0 0 -1 0 0)\">\n")
}

// Writes the last line.
fn write_end<W: Sink>(out: &mut W) -> Result<(), IoFault>
    requires { (W.state out.old).failed ≡ false }
    ensures { Writes (W.state out.old) (W.state out.new) (codes "</g></svg>\n") result }
{
    emit(out, b"</g></svg>\n")
}

// Writes the line of the window.
fn write_view<W: Sink>(frame: Frame, out: &mut W) -> Result<(), IoFault>
    requires { (W.state out.old).failed ≡ false }
    ensures { Writes (W.state out.old) (W.state out.new) (svg_line (window_of frame)) result }
{
    let window = window_of(frame);
    write_svg(&window, out)
}

// Writes the ground of the window.
fn write_backdrop<W: Sink>(frame: Frame, out: &mut W) -> Result<(), IoFault>
    requires { (W.state out.old).failed ≡ false }
    ensures { Writes (W.state out.old) (W.state out.new) (ground_line (window_of frame)) result }
{
    let window = window_of(frame);
    write_ground(&window, out)
}

// Writes the line before those of the sectors.
fn write_cells<W: Sink>(frame: Frame, size: u32, out: &mut W) -> Result<(), IoFault>
    requires { (W.state out.old).failed ≡ false }
    ensures { Writes (W.state out.old) (W.state out.new) (cells_line frame size) result }
{
    let mut line = TextLine::new();
    prepend_cells(&mut line, frame, size);
    emit(out, line.as_bytes())
}

// `<g class="s" transform="matrix({size} 0 0 {-size} {x0} {-y0})">`
fn prepend_cells(line: &mut TextLine, frame: Frame, size: u32)
    requires { line.old ≡ [] }
    ensures { line.new ≡ cells_line frame size }
{
    let size = u64::from(size);
    line.prepend_bytes(b")\">\n");
    prepend_opposite(line, frame.y0());
    line.prepend_bytes(b" ");
    prepend_word(line, &frame.x0());
    line.prepend_bytes(b" ");
    line.prepend_natural(size);
    line.prepend_bytes(b" 0 0 -");
    line.prepend_natural(size);
    line.prepend_bytes(b"<g class=\"s\" transform=\"matrix(");
}

// Puts a word's opposite before the line.
fn prepend_opposite(line: &mut TextLine, word: i16)
    requires { length line.old + 21 ≤ 144 }
    ensures text { line.new ≡ signed_decimal (neg_ℤ word) ++ line.old }
    ensures length { length line.new ≤ length line.old + 21 }
{
    line.prepend_integer(-i64::from(word));
}

// The sectors that are shown.
#[derive(Drop)]
struct SectorLines<'p, 'a, 'b> {
    level: &'p Level<'a>,
    shown: &'p [SectorCells<'b>],
}

impl TextParts for SectorLines<'_, '_, '_> {
    ghost use Rattle.std.specs.Prelude.{map};
    ghost use Rattle.map_picture.specs.Picture.{sector_part};

    ghost parts = { λ lines. map (sector_part lines.level.now) lines.shown.now };

    fn count(&self) -> usize {
        self.shown.len()
    }

    fn write<W: Sink>(&self, number: usize, out: &mut W) -> Result<(), IoFault> {
        write_shown(self.level, &self.shown[number], out)
    }
}

// Writes the line of a sector, where the level has it.
fn write_shown<W: Sink>(
    level: &Level<'_>,
    shown: &SectorCells<'_>,
    out: &mut W,
) -> Result<(), IoFault>
    requires { (W.state out.old).failed ≡ false }
    ensures { Writes (W.state out.old) (W.state out.new) (sector_part level.now shown.now) result }
{
    match level.sectors().get(usize::from(shown.number)) {
        Some(sector) => write_sector(shown.number, &sector, shown.blocks, shown.cells, out),
        None => emit(out, b""),
    }
}
