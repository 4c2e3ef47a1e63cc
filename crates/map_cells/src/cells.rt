//! Which sector each cell shows.

ghost use Rattle.std.specs.Prelude.{◌≡◌, ◌≢◌, ◌<◌, ◌≤◌, ℕ, None, IfOk, IfSome, OnOk, OnSome, Some, length};
ghost use Rattle.std.specs.List.{slice_get};
ghost use Rattle.map_cells.specs.Ends.{ListsEnds};
ghost use Rattle.map_cells.specs.Grid.{columns_of, rows_of};
ghost use Rattle.map_cells.specs.Cells.{cell, cells_at, AddsRow, AreCells, GoesOn, TellsCell};
ghost use Rattle.map_cells.specs.Row.{IsRowInRange};
ghost use Rattle.map_cells.specs.Way.{AllCome};
ghost use Rattle.map_tree.specs.SectorList.{ListsSectors};
ghost use Rattle.map_tree.specs.Sound.{IsSound};

use crate::ends::{Ends, listed_ends};
use crate::front::{Span, front_of_segs};
use crate::grid::Grid;
use crate::row::Row;
use crate::seen::Seen;
use crate::shown::Shown;
use crate::way::{Pending, Stretch, go_down, start};
use map_level::Level;
use map_tree::NF_SUBSECTOR;
use std::alloc::{AllocError, Allocator, Global};
use std::marker::Model;

/// From how many columns, and cells in rows with all points in range, a picture's rows go down the nodes together. In smaller
/// pictures each point goes alone: they gain less than the start takes.
const COLUMNS_TOGETHER: usize = 8;

const CELLS_TOGETHER: usize = 256;

/// The sector that each cell of a grid shows, if any: four bytes a cell.
#[derive(Drop)]
pub struct Cells<A: Allocator = Global> {
    grid: Grid,
    columns: usize,
    rows: usize,
    seen: Seen<A>,
}

impl<A: Allocator> Model for Cells<A> {
    ghost use Rattle.std.specs.Prelude.{◌≡◌};
    ghost use Rattle.map_cells.specs.Cells as cells;
    ghost use Rattle.map_cells.specs.Cells.{IsWhole};
    ghost use Rattle.map_cells.specs.Grid.{columns_of, rows_of};

    ghost Value = { cells.Cells };

    ghost view = { λ c. record { grid = c.grid; shown = c.seen } };

    ghost invariant = { λ c. IsWhole (record { grid = c.grid; shown = c.seen })
        × (c.columns ≡ columns_of c.grid) × (c.rows ≡ rows_of c.grid) };
}

impl<A: Allocator> Cells<A> {
    ghost use Rattle.map_cells.specs.Cells.{IsWhole};

    /// What is shown at the points of a grid's cells. If there are four times as many cells as segs that an ssector can name, and
    /// memory for it, it takes ten bytes more for each of these segs while it runs.
    pub fn of<B: Allocator>(
        alloc: A,
        shown: &Shown<'_, '_, B>,
        grid: Grid,
    ) -> Result<Cells<A>, AllocError>
        ensures { IfOk result (λ cells. (cells.grid ≡ grid) × AreCells shown.now cells) }
    {
        let columns = usize::from(grid.columns());
        let rows = usize::from(grid.rows());
        let together = if columns < COLUMNS_TOGETHER || rows * columns < CELLS_TOGETHER {
            0
        } else {
            rows_in_range(grid) * columns
        };
        let seen = if together < CELLS_TOGETHER {
            seen_by_points(alloc, shown, grid)?
        } else {
            seen_by_rows(alloc, shown, grid, together)?
        };
        Ok(Cells {
            grid,
            columns,
            rows,
            seen,
        })
    }

    /// The grid.
    pub fn grid(&self) -> Grid
        ensures { result ≡ self.now.grid }
    {
        self.grid
    }

    // What the cells show, row by row: at most 1,048,576.
    pub(crate) fn seen(&self) -> &Seen<A>
        ensures value { result.now ≡ self.now.shown }
        ensures few { length result.now ≤ 1048576 }
    {
        &self.seen
    }

    // A number above each sector that a cell shows.
    pub(crate) fn sector_bound(&self) -> usize
        ensures bound { (i j s : ℕ) → cell self.now i j ≡ Some s → s < result }
        ensures listed { (p s : ℕ) → slice_get self.now.shown p ≡ Some (Some s) → s < result }
        ensures few { result ≤ 65536 }
    {
        self.seen.bound()
    }

    // How many cells a row has, at most 1024. The clauses add that nothing is shown outside the grid.
    #[inline]
    pub(crate) fn columns(&self) -> usize
        ensures value { result ≡ columns_of self.now.grid }
        ensures few { result ≤ 1024 }
        ensures beside { (i j : ℕ) → result ≤ i → cell self.now i j ≡ None }
    {
        self.columns
    }

    // How many rows there are, at most 1024.
    #[inline]
    pub(crate) fn rows(&self) -> usize
        ensures value { result ≡ rows_of self.now.grid }
        ensures few { result ≤ 1024 }
        ensures above { (i j : ℕ) → result ≤ j → cell self.now i j ≡ None }
    {
        self.rows
    }

    // The first column behind one whose cell shows something else, or the number of columns.
    #[inline]
    pub(crate) fn same_end(&self, i: usize, j: usize) -> usize
        requires column { i < columns_of self.now.grid }
        requires row { j < rows_of self.now.grid }
        ensures after { i < result }
        ensures few { result ≤ columns_of self.now.grid }
        ensures narrow { result ≤ 1024 }
        ensures same { (c : ℕ) → i ≤ c → c < result → cell self.now c j ≡ cell self.now i j }
        ensures stops { (s : ℕ) → cell self.now i j ≡ Some s → cell self.now result j ≢ Some s }
    {
        let start = j * self.columns;
        self.seen.same_end(start + i, start + self.columns) - start
    }

    // A column up to which all cells of the row, from a given one on, are known to show the same.
    #[inline]
    pub(crate) fn known_end(&self, i: usize, j: usize) -> usize
        requires column { i < columns_of self.now.grid }
        requires row { j < rows_of self.now.grid }
        ensures after { i < result }
        ensures same { (c : ℕ) → i ≤ c → c < result → cell self.now c j ≡ cell self.now i j }
    {
        let start = j * self.columns;
        (self.seen.known_end(start + i) - start).min(self.columns)
    }

    /// The sector that the cell in column i and row j shows; None outside the grid, too.
    #[inline]
    pub fn get(&self, i: usize, j: usize) -> Option<u16>
        ensures value { result ≡ cell self.now i j }
        ensures within { OnSome result ((i < columns_of self.now.grid) × (j < rows_of self.now.grid)) }
        ensures few { OnSome result ((i < 1024) × (j < 1024)) }
    {
        if i >= self.columns || j >= self.rows {
            return None;
        }
        self.seen.get(j * self.columns + i)
    }
}

// How many rows of cells have all their points in range.
fn rows_in_range(grid: Grid) -> usize
    ensures { result ≤ rows_of grid }
{
    let mut count = 0;
    for j in 0..grid.rows() {
        if Row::of(grid, j).is_some() {
            count += 1;
        }
    }
    count
}

// What all cells show, each found alone.
fn seen_by_points<A: Allocator, B: Allocator>(
    alloc: A,
    shown: &Shown<'_, '_, B>,
    grid: Grid,
) -> Result<Seen<A>, AllocError>
    ensures { IfOk result (λ seen. AreCells shown.now (cells_at grid seen)) }
{
    let mut seen = Seen::with_capacity(
        alloc,
        usize::from(grid.rows()) * usize::from(grid.columns()),
    )?;
    for j in 0..grid.rows() {
        push_each(shown, grid, j, &mut seen)?;
    }
    Ok(seen)
}

// The same, row by row. `together` cells are in rows whose points go down together.
fn seen_by_rows<A: Allocator, B: Allocator>(
    alloc: A,
    shown: &Shown<'_, '_, B>,
    grid: Grid,
    together: usize,
) -> Result<Seen<A>, AllocError>
    ensures { IfOk result (λ seen. AreCells shown.now (cells_at grid seen)) }
{
    let mut seen = Seen::with_capacity(
        alloc,
        usize::from(grid.rows()) * usize::from(grid.columns()),
    )?;
    let ends = listed_ends(shown.allocator(), shown.level(), together / 4);
    let mut pending = Pending::new();
    for j in 0..grid.rows() {
        push_row(shown, &ends, grid, j, &mut pending, &mut seen)?;
    }
    Ok(seen)
}

// Adds what a row of cells shows: its points go down the nodes together, where all are in range.
fn push_row<A: Allocator, B: Allocator>(
    shown: &Shown<'_, '_, B>,
    ends: &[Option<Ends>],
    grid: Grid,
    j: u16,
    pending: &mut Pending,
    seen: &mut Seen<A>,
) -> Result<(), AllocError>
    requires listed { ListsEnds shown.now ends.now }
    requires there { j < rows_of grid }
    ensures { OnOk result (AddsRow shown.now grid j (columns_of grid) seen.old seen.new) }
{
    match Row::of(grid, j) {
        Some(row) => push_together(shown, ends, row, pending, seen),
        None => push_each(shown, grid, j, seen),
    }
}

// Adds what a row of cells shows, each by itself.
#[inline(always)]
fn push_each<A: Allocator, B: Allocator>(
    shown: &Shown<'_, '_, B>,
    grid: Grid,
    j: u16,
    seen: &mut Seen<A>,
) -> Result<(), AllocError>
    requires { j < rows_of grid }
    ensures { OnOk result (AddsRow shown.now grid j (columns_of grid) seen.old seen.new) }
{
    for i in 0..grid.columns() {
        seen.push(shown.at(grid.x(i), grid.y(j)))?;
    }
    Ok(())
}

// Adds what a row of cells shows, with all points in range.
fn push_together<A: Allocator, B: Allocator>(
    shown: &Shown<'_, '_, B>,
    ends: &[Option<Ends>],
    row: Row,
    pending: &mut Pending,
    seen: &mut Seen<A>,
) -> Result<(), AllocError>
    requires { ListsEnds shown.now ends.now }
    ensures { OnOk result (AddsRow shown.now row.grid row.j (columns_of row.grid) seen.old seen.new) }
{
    let level = shown.level();
    let sectors = shown.sectors();
    pending.clear();
    let mut hand = start(level, row);
    let mut from = 0;
    while from < row.columns() {
        let run = go_down(level, row, from, hand, pending);
        push_run(level, sectors, ends, row, from, run, seen)?;
        from = run.end;
        if let Some(next) = pending.pop() {
            hand = next;
        }
    }
    Ok(())
}

// Adds the cells of a row from a column on whose points have come to one ssector.
#[inline]
fn push_run<A: Allocator>(
    level: &Level<'_>,
    sectors: &[u16],
    ends: &[Option<Ends>],
    row: Row,
    from: u16,
    run: Stretch,
    seen: &mut Seen<A>,
) -> Result<(), AllocError>
    requires sound { IsSound level.now }
    requires listed { ListsSectors level.now sectors.now }
    requires ends { ListsEnds level.now ends.now }
    requires valid { IsRowInRange row }
    requires ssector { 32768 ≤ run.word }
    requires some { from < run.end }
    requires within { run.end ≤ columns_of row.grid }
    requires come { AllCome level.now row from run.end run.word }
    ensures { OnOk result (GoesOn level.now row from run.end seen.old seen.new) }
{
    let t = run.word - NF_SUBSECTOR;
    let span = Span {
        first: from,
        end: run.end,
    };
    let front = front_of_segs(level, ends, t, row, span);
    let sector = sectors[usize::from(t)];
    push_same(level, row, from, front.first, None, seen)?;
    push_same(level, row, front.first, front.end, Some(sector), seen)?;
    push_same(level, row, front.end, run.end, None, seen)
}

// Adds cells of a row that all show the same.
#[inline(always)]
fn push_same<A: Allocator>(
    level: &Level<'_>,
    row: Row,
    from: u16,
    end: u16,
    same: Option<u16>,
    seen: &mut Seen<A>,
) -> Result<(), AllocError>
    requires ordered { from ≤ end }
    requires within { end ≤ columns_of row.grid }
    requires tells { (i : ℕ) → from ≤ i → i < end → TellsCell level.now row i same }
    ensures { OnOk result (GoesOn level.now row from end seen.old seen.new) }
{
    // Only the clauses speak of the level and the row.
    let (_level, _row) = (level, row);
    seen.push_same(same, usize::from(end - from))
}
