//! Draws a level: finds its frame, counts its findings and finds what its cells show.

ghost use Rattle.std.specs.Prelude.{◌≡◌, ◌↔◌, ◌≤◌, ◌<◌, [], false, Some, None, Err, IsTrue, IfOk, IfErr, IfSome, OnOk, length};
ghost use Rattle.map_cells.specs.Cells.{AreCells, cell};
ghost use Rattle.map_cells.specs.SectorCounts.{AreCounts};
ghost use Rattle.map_cells.specs.Groups.{AreGroups};
ghost use Rattle.map_tree.specs.Sound.{IsSound};
ghost use Rattle.map_picture.specs.Drawing.{HasNothing, IsAuditedDrawn, IsAuditedText, IsFrameOf, IsPicture};
ghost use Rattle.map_picture.specs.Drawing.{StopsDrawing, StopsText, TakesWhole};
ghost use Rattle.map_picture.specs.declared.draw.DrawFault.TheVariants.{NothingToDraw};

use crate::counted_level::CountedLevel;
use crate::listing::listed;
use crate::picture::{Drawn, write_picture};
use crate::sectors::SectorCells;
use crate::warned::{MarkedWarnings, marked_warnings};
use le_rec::Sink;
use map_cells::{CellCount, Cells, Frame, Grid, Groups, SectorCounts, Shown};
use map_level::Level;
use map_warnings::Warning;
use std::alloc::{AllocError, Allocator};
use thiserror::Error;

/// What of a level is drawn, and how finely.
#[derive(Clone, Copy, Debug, PartialEq, Eq)]
pub struct View {
    /// The part that is drawn in cells; None for that of the level's linedefs.
    pub frame: Option<Frame>,
    /// How many cells the frame's longer side has at most.
    pub cells: CellCount,
    /// Which warnings are marked; None for none.
    pub warnings: Option<MarkedWarnings>,
}

/// Why a level isn't drawn.
#[derive(Clone, Copy, Debug, PartialEq, Eq, Error)]
pub enum DrawFault {
    /// No linedef has both of its vertexes, and no frame is asked for.
    #[error("nothing to draw")]
    NothingToDraw,
    /// A growth was refused.
    #[error("no memory left")]
    Memory,
    /// The output failed. Whether the level has a fault.
    #[error("the output can't be written")]
    Write(bool),
}

// Why a picture isn't written to its end.
#[derive(Clone, Copy)]
enum TextFault {
    Memory,
    Write,
}

impl From<AllocError> for TextFault {
    ghost use Rattle.map_picture.specs.declared.draw.TextFault.TheVariants.{Memory};

    ghost from_gives = { λ _ fault. fault ≡ Memory };

    fn from(_error: AllocError) -> TextFault {
        TextFault::Memory
    }
}

impl From<AllocError> for DrawFault {
    ghost use Rattle.map_picture.specs.declared.draw.DrawFault.TheVariants.{Memory};

    ghost from_gives = { λ _ fault. fault ≡ Memory };

    fn from(_error: AllocError) -> DrawFault {
        DrawFault::Memory
    }
}

/// Writes the picture of a level, and returns whether the level has a fault. With a fault it is drawn without cells.
/// `NothingToDraw` and `Memory` come before anything is written. It takes two bytes for each node and ssector, and twelve for each
/// warning that is marked. Without a fault it takes besides at most twelve bytes a cell, ten a seg and some hundred a sector.
pub fn draw_level<A: Allocator + Copy, W: Sink>(
    alloc: A,
    level: &Level<'_>,
    asked: View,
    out: &mut W,
) -> Result<bool, DrawFault>
    requires sound { (W.state out.old).failed ≡ false }
    ensures drawn { OnOk result (TakesWhole (IsPicture level.now asked) (W.state out.old) (W.state out.new)) }
    ensures faulty { IfOk result (λ faulty. IsTrue faulty ↔ (¬ IsSound level.now)) }
    ensures stopped { IfErr result (StopsDrawing W.state level.now asked out.old out.new) }
    ensures nothing { (result ≡ Err NothingToDraw) ↔ HasNothing level.now asked.frame }
{
    let Some(frame) = frame_of(level, asked.frame) else {
        return Err(DrawFault::NothingToDraw);
    };
    let counted = CountedLevel::of(alloc, level)?;
    let marked = marked_warnings(alloc, level, asked.warnings)?;
    let faulty = counted.counts().faults > 0;
    match draw_counted(alloc, &counted, &marked, Grid::new(frame, asked.cells), out) {
        Ok(()) => Ok(faulty),
        Err(TextFault::Memory) => Err(DrawFault::Memory),
        Err(TextFault::Write) => Err(DrawFault::Write(faulty)),
    }
}

// The part that is drawn: the one that is asked for, and else the level's.
fn frame_of(level: &Level<'_>, asked: Option<Frame>) -> Option<Frame>
    ensures frame { IfSome result (IsFrameOf level.now asked) }
    ensures none { (result ≡ None) ↔ HasNothing level.now asked }
{
    match asked {
        Some(frame) => Some(frame),
        None => Frame::of(level),
    }
}

// Writes the picture of a level whose findings are counted.
fn draw_counted<A: Allocator + Copy, W: Sink>(
    alloc: A,
    counted: &CountedLevel<'_, '_, A>,
    marked: &[Warning],
    grid: Grid,
    out: &mut W,
) -> Result<(), TextFault>
    requires { (W.state out.old).failed ≡ false }
    ensures drawn { OnOk result (TakesWhole (IsAuditedDrawn counted.now grid marked.now) (W.state out.old) (W.state out.new)) }
    ensures stopped { IfErr result (StopsText W.state (IsAuditedDrawn counted.now grid marked.now) out.old out.new) }
{
    let counts = counted.counts();
    if counts.faults > 0 {
        draw_shown(counted, grid, &[], marked, out)
    } else {
        draw_sound(alloc, counted, marked, grid, out)
    }
}

// Writes the picture of a sound level.
fn draw_sound<A: Allocator + Copy, W: Sink>(
    alloc: A,
    counted: &CountedLevel<'_, '_, A>,
    marked: &[Warning],
    grid: Grid,
    out: &mut W,
) -> Result<(), TextFault>
    requires level_sound { IsSound counted.now }
    requires sound { (W.state out.old).failed ≡ false }
    ensures drawn { OnOk result (TakesWhole (IsAuditedDrawn counted.now grid marked.now) (W.state out.old) (W.state out.new)) }
    ensures stopped { IfErr result (StopsText W.state (IsAuditedDrawn counted.now grid marked.now) out.old out.new) }
{
    let cells = cells_of(alloc, counted.level(), grid)?;
    draw_cells(alloc, counted, marked, &cells, out)
}

// What is shown at the points of a grid's cells.
fn cells_of<A: Allocator + Copy>(
    alloc: A,
    level: &Level<'_>,
    grid: Grid,
) -> Result<Cells<A>, AllocError>
    requires { IsSound level.now }
    ensures { IfOk result (λ cells. (cells.grid ≡ grid) × AreCells level.now cells) }
{
    let shown = Shown::of(alloc, level)?;
    Cells::of(alloc, &shown, grid)
}

// Writes the picture of a sound level by its cells.
fn draw_cells<A: Allocator + Copy, W: Sink>(
    alloc: A,
    counted: &CountedLevel<'_, '_, A>,
    marked: &[Warning],
    cells: &Cells<A>,
    out: &mut W,
) -> Result<(), TextFault>
    requires level_sound { IsSound counted.now }
    requires are { AreCells counted.now cells.now }
    requires sound { (W.state out.old).failed ≡ false }
    ensures drawn { OnOk result (TakesWhole (IsAuditedDrawn counted.now cells.now.grid marked.now) (W.state out.old) (W.state out.new)) }
    ensures stopped { IfErr result (StopsText W.state (IsAuditedDrawn counted.now cells.now.grid marked.now) out.old out.new) }
{
    let groups = Groups::of(alloc, cells)?;
    let counts = SectorCounts::of(alloc, cells)?;
    let shown = listed(alloc, &groups, &counts)?;
    draw_shown(counted, cells.grid(), &shown, marked, out)
}

// Writes the picture of a level by the sectors that cells show.
fn draw_shown<A: Allocator, W: Sink>(
    counted: &CountedLevel<'_, '_, A>,
    grid: Grid,
    shown: &[SectorCells<'_>],
    marked: &[Warning],
    out: &mut W,
) -> Result<(), TextFault>
    requires { (W.state out.old).failed ≡ false }
    ensures drawn { OnOk result (TakesWhole (IsAuditedText counted.now grid shown.now marked.now) (W.state out.old) (W.state out.new)) }
    ensures stopped { IfErr result (StopsText W.state (IsAuditedText counted.now grid shown.now marked.now) out.old out.new) }
{
    let drawn = Drawn {
        frame: grid.frame(),
        size: grid.size(),
        shown,
        marked,
    };
    match write_picture(counted, &drawn, out) {
        Ok(()) => Ok(()),
        Err(_) => Err(TextFault::Write),
    }
}
