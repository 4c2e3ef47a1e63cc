//! Blocks of cells that show one sector.

ghost use Rattle.std.specs.Prelude.{◌≡◌, ◌≢◌, ◌↔◌, ◌+◌, ◌-◌, ◌<◌, ◌≤◌, ℕ, IsTrue, IfSome, Some};
ghost use Rattle.map_cells.specs.Blocks.{IsRun};
ghost use Rattle.map_cells.specs.Cells.{cell};
ghost use Rattle.map_cells.specs.Grid.{columns_of, rows_of};

use crate::cells::Cells;
use std::alloc::Allocator;

/// Cells that show one sector: a width and a height, from a column and a row on. Each of its rows has these cells as a run that
/// can't be longer, and the rows below and above it don't.
#[derive(Clone, Copy, Debug, PartialEq, Eq)]
pub struct Block {
    pub column: u16,
    pub row: u16,
    pub width: u16,
    pub height: u16,
}

impl<A: Allocator> Cells<A> {
    ghost use Rattle.map_cells.specs.declared.block.Block as block;
    ghost use Rattle.map_cells.specs.Blocks.{BeginsAt};

    /// The block whose first column is i and whose first row is j; None where no block begins there. It shows the sector of that cell.
    pub fn block_at(&self, i: usize, j: usize) -> Option<Block>
        ensures { (b : block.Block) → (result ≡ Some b) ↔ BeginsAt (cell self.now) i j b }
    {
        let sector = self.get(i, j)?;
        // A run is looked through only where it begins.
        if self.goes_on(sector, i, j) {
            return None;
        }
        self.block_of_run(sector, i, j, self.same_end(i, j))
    }

    // The same where the cell shows the sector and those behind it do up to a column that doesn't.
    #[inline]
    pub(crate) fn block_of_run(&self, sector: u16, i: usize, j: usize, end: usize) -> Option<Block>
        requires here { cell self.now i j ≡ Some sector }
        requires column { i < end }
        requires few { end ≤ 1024 }
        requires low { j < 1024 }
        requires row { j < rows_of self.now.grid }
        requires all { (c : ℕ) → i ≤ c → c < end → cell self.now c j ≡ Some sector }
        requires stops { cell self.now end j ≢ Some sector }
        ensures { (b : block.Block) → (result ≡ Some b) ↔ BeginsAt (cell self.now) i j b }
    {
        let width = self.run_at(sector, i, j, end)?;
        if j > 0 && self.has_run(sector, i, j - 1, width) {
            return None;
        }
        let end = self.run_rows(sector, i, j, width);
        Some(Block {
            column: i as u16,
            row: j as u16,
            width: width as u16,
            height: (end - j) as u16,
        })
    }

    // Whether a cell shows the sector.
    #[inline]
    fn shows(&self, sector: u16, i: usize, j: usize) -> bool
        ensures shows { IsTrue result ↔ (cell self.now i j ≡ Some sector) }
        ensures row { IsTrue result → j < rows_of self.now.grid }
    {
        self.get(i, j) == Some(sector)
    }

    // Whether the cell on the left of a column shows the sector, too.
    #[inline]
    fn goes_on(&self, sector: u16, i: usize, j: usize) -> bool
        ensures { IsTrue result ↔ ((0 < i) × (cell self.now (i - 1) j ≡ Some sector)) }
    {
        i > 0 && self.shows(sector, i - 1, j)
    }

    // The length of the run that begins in column i and goes up to `end`; None if it begins further left.
    #[inline]
    fn run_at(&self, sector: u16, i: usize, j: usize, end: usize) -> Option<usize>
        requires here { cell self.now i j ≡ Some sector }
        requires column { i < end }
        requires few { end ≤ 1024 }
        requires all { (c : ℕ) → i ≤ c → c < end → cell self.now c j ≡ Some sector }
        requires stops { cell self.now end j ≢ Some sector }
        ensures run { (n : ℕ) → (result ≡ Some n) ↔ IsRun (cell self.now) sector i j n }
        ensures few { IfSome result (λ n. i + n ≤ 1024) }
    {
        if self.goes_on(sector, i, j) {
            return None;
        }
        Some(end - i)
    }

    // Whether all columns from one to another show the sector.
    #[inline]
    fn shows_all(&self, sector: u16, from: usize, to: usize, j: usize) -> bool
        ensures { IsTrue result ↔ ((c : ℕ) → from ≤ c → c < to → cell self.now c j ≡ Some sector) }
    {
        let mut c = from;
        while c < to {
            if !self.shows(sector, c, j) {
                return false;
            }
            c = self.known_end(c, j);
        }
        true
    }

    // Whether a row has the run.
    #[inline]
    fn has_run(&self, sector: u16, i: usize, j: usize, n: usize) -> bool
        requires some { 0 < n }
        requires few { i + n ≤ 1024 }
        ensures { IsTrue result ↔ IsRun (cell self.now) sector i j n }
    {
        // Runs mostly differ at their ends, so these are compared first.
        if self.goes_on(sector, i, j) {
            return false;
        }
        !self.shows(sector, i + n, j) && self.shows_all(sector, i, i + n, j)
    }

    // The first row without the run, from a given one on.
    #[inline]
    fn run_rows(&self, sector: u16, i: usize, j: usize, n: usize) -> usize
        requires run { IsRun (cell self.now) sector i j n }
        requires few { i + n ≤ 1024 }
        requires low { j < 1024 }
        requires within { j < rows_of self.now.grid }
        ensures all { (r : ℕ) → j ≤ r → r < result → IsRun (cell self.now) sector i r n }
        ensures end { ¬ IsRun (cell self.now) sector i result n }
        ensures from { j < result }
        ensures few { result ≤ 1024 }
    {
        for r in j + 1..self.rows() {
            if !self.has_run(sector, i, r, n) {
                return r;
            }
        }
        self.rows()
    }
}
