//! Which sectors the cells of a picture show.

ghost use Rattle.std.specs.Prelude.{◌≡◌, ◌*◌, ◌<◌, ◌≤◌, IfErr, IfNone, IfOk, IfSome, drop, length, true};
ghost use Rattle.map_cells.specs.Cells.{AreCells};
ghost use Rattle.map_cells.specs.Frame.{IsFrame, frame_at};
ghost use Rattle.map_cells.specs.Grid.{columns_of, rows_of};
ghost use Rattle.map_level.specs.Level.{Level};
ghost use Rattle.map_picture.specs.Drawing.{HasNothing, IsFrameOf};
ghost use Rattle.map_tree.specs.Sound.{IsSound};
ghost use Rattle.wadlook_c.specs.Ends.{reading_of};
ghost use Rattle.wadlook_c.specs.declared.cells.SeenFault.TheVariants.{NoView};
ghost use Rattle.wadlook_c.specs.Seen.{AreSeen, IsGrid, IsGridOf, IsView, RefusesSeen, RefusesView, SeesCells, SeesLevel, TellsGrid, cell_number, frame_of, seen_number_of};

use crate::entry::{EntryFault, entry_number_of, open_accepted};
use crate::opening::reading_of;
use crate::status::{DONE, NO_ROOM, NO_VIEW, NOTHING_TO_DRAW};
use look_engines::RunFault;
use map_cells::{CellCount, Cells, Frame, Grid, Shown};
use map_level::{Level, Reading};
use std::alloc::{AllocError, Allocator, Global};

/// The part of a map whose cells are asked for, and how finely: from x0 to x1 and y0 to y1 where `framed` is 1, and that of the
/// level's linedefs where it is 0; its longer side has `cells` cells at most, from 1 to 1024.
#[repr(C)]
#[derive(Clone, Copy)]
pub struct WadlookView {
    pub x0: i16,
    pub y0: i16,
    pub x1: i16,
    pub y1: i16,
    pub cells: u32,
    pub framed: bool,
}

/// Cells: how wide and high each is, in map units, how many a row has, how many rows there are, and the map's column and row in
/// which the point of the first one lies.
#[repr(C)]
#[derive(Clone, Copy)]
pub struct WadlookGrid {
    pub size: u32,
    pub columns: u32,
    pub rows: u32,
    pub x: i32,
    pub y: i32,
}

/// Why no cells are told.
#[derive(Clone, Copy, Debug, PartialEq, Eq)]
pub enum SeenFault {
    /// The bounds are no frame's, or there is no such number of cells.
    NoView,
    /// The level isn't judged.
    Entry(EntryFault),
    /// No linedef has both of its vertexes, and no frame is asked for.
    Nothing,
}

impl From<EntryFault> for SeenFault {
    ghost use Rattle.std.specs.Prelude.{◌≡◌};
    ghost use Rattle.wadlook_c.specs.declared.cells.SeenFault.TheVariants.{Entry};

    ghost from_gives = { λ fault given. given ≡ Entry fault };

    fn from(fault: EntryFault) -> SeenFault {
        SeenFault::Entry(fault)
    }
}

/// Writes the sector that each cell shows, row by row from the lowest, to `out`, -1 where none is, and the cells' size and
/// numbers to `grid`. The level is the sound one whose label is an entry. It returns 0, or else the status of a refusal. At
/// `NO_ROOM` nothing is written but `grid`, whose columns and rows say how much room is enough.
#[unsafe(no_mangle)]
pub extern "C" fn wadlook_cells(
    alloc: Global,
    wad: &[u8],
    entry: usize,
    wide: bool,
    view: &WadlookView,
    out: &mut [i32],
    grid: &mut WadlookGrid,
) -> u32
    ensures done { result ≡ DONE → (level : Level) × SeesLevel wad.now entry (reading_of wide) view.now level × AreSeen level view.now out.new grid.new }
    ensures behind { result ≡ DONE → drop (grid.new.columns * grid.new.rows) out.new ≡ drop (grid.new.columns * grid.new.rows) out.old }
    ensures room { result ≡ NO_ROOM → (level : Level) × SeesLevel wad.now entry (reading_of wide) view.now level × IsGridOf level view.now grid.new
        × (length out.old < grid.new.columns * grid.new.rows) }
    ensures refused { ¬ (result ≡ DONE) → ¬ (result ≡ NO_ROOM) → RefusesSeen wad.now entry (reading_of wide) view.now result }
    ensures untouched { ¬ (result ≡ DONE) → out.new ≡ out.old }
    ensures grid_untouched { ¬ (result ≡ DONE) → ¬ (result ≡ NO_ROOM) → grid.new ≡ grid.old }
{
    match seen(alloc, wad, entry, reading_of(wide), view) {
        Ok(cells) => {
            let told = told_grid(cells.grid());
            *grid = told;
            let count = told.columns as usize * told.rows as usize;
            if count > out.len() {
                return NO_ROOM;
            }
            put_cells(&cells, &mut out[..count]);
            DONE
        }
        Err(fault) => seen_number_of(fault),
    }
}

// The cells of a level.
fn seen(
    alloc: Global,
    wad: &[u8],
    entry: usize,
    reading: Reading,
    view: &WadlookView,
) -> Result<Cells, SeenFault>
    ensures ok { IfOk result (λ cells. (level : Level) × SeesLevel wad.now entry reading view.now level
        × IsGrid level view.now cells.grid × AreCells level cells) }
    ensures err { IfErr result (RefusesView wad.now entry reading view.now) }
{
    let Some(count) = CellCount::new(view.cells) else {
        return Err(SeenFault::NoView);
    };
    let framed = framed_by(view)?;
    let level = open_accepted(alloc, wad, entry, reading)?;
    let Some(frame) = frame_or_own(&level, framed) else {
        return Err(SeenFault::Nothing);
    };
    match cells_of(alloc, &level, Grid::new(frame, count)) {
        Ok(cells) => Ok(cells),
        Err(_) => Err(SeenFault::Entry(EntryFault::Run(RunFault::Memory))),
    }
}

// The frame that is asked for.
fn framed_by(view: &WadlookView) -> Result<Option<Frame>, SeenFault>
    ensures ok { IfOk result (λ frame. frame ≡ frame_of view.now) }
    ensures valid { IfOk result (λ _. view.now.framed ≡ true → IsFrame (frame_at view.now.x0 view.now.y0 view.now.x1 view.now.y1)) }
    ensures err { IfErr result (λ fault. (fault ≡ NoView) × (¬ IsView view.now)) }
{
    if !view.framed {
        return Ok(None);
    }
    match Frame::new(view.x0, view.y0, view.x1, view.y1) {
        Some(frame) => Ok(Some(frame)),
        None => Err(SeenFault::NoView),
    }
}

// The frame that is asked for, and else the level's.
fn frame_or_own(level: &Level<'_>, asked: Option<Frame>) -> Option<Frame>
    ensures some { IfSome result (IsFrameOf level.now asked) }
    ensures none { IfNone result (HasNothing level.now asked) }
{
    match asked {
        Some(frame) => Some(frame),
        None => Frame::of(level),
    }
}

// The cells of a sound level.
fn cells_of(alloc: Global, level: &Level<'_>, grid: Grid) -> Result<Cells, AllocError>
    requires { IsSound level.now }
    ensures { IfOk result (λ cells. (cells.grid ≡ grid) × AreCells level.now cells) }
{
    let shown = Shown::of(alloc, level)?;
    Cells::of(alloc, &shown, grid)
}

// The numbers of a grid.
fn told_grid(grid: Grid) -> WadlookGrid
    ensures { TellsGrid grid result }
{
    WadlookGrid {
        size: grid.size(),
        columns: u32::from(grid.columns()),
        rows: u32::from(grid.rows()),
        x: grid.x(0),
        y: grid.y(0),
    }
}

// Writes the sector of each cell.
fn put_cells<A: Allocator>(cells: &Cells<A>, out: &mut [i32])
    requires { length out.old ≡ columns_of cells.now.grid * rows_of cells.now.grid }
    ensures { SeesCells cells.now out.new }
{
    let columns = usize::from(cells.grid().columns());
    for at in 0..out.len() {
        out[at] = cell_number(cells.get(at % columns, at / columns));
    }
}

// The number of a cell's sector.
fn cell_number(sector: Option<u16>) -> i32
    ensures { result ≡ cell_number sector }
{
    match sector {
        Some(sector) => i32::from(sector),
        None => -1,
    }
}

// The status for why no cells are told.
fn seen_number_of(fault: SeenFault) -> u32
    ensures { result ≡ seen_number_of fault }
{
    match fault {
        SeenFault::NoView => NO_VIEW,
        SeenFault::Entry(fault) => entry_number_of(fault),
        SeenFault::Nothing => NOTHING_TO_DRAW,
    }
}
