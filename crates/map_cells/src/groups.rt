//! The blocks of each sector.

ghost use Rattle.std.specs.Prelude.{◌≡◌, ◌+◌, ◌<◌, ◌≤◌, ℕ, [], Some, IfOk, OnOk, length, map, slice_index_or};
ghost use Rattle.std.specs.Vec.{vec_capacity};
ghost use Rattle.map_cells.specs.Cells.{IsSameEnd, cell};
ghost use Rattle.map_cells.specs.Grid.{columns_of, rows_of};
ghost use Rattle.map_cells.specs.Groups.{AddsBlock, AreBlocksBefore, PushesBlock};

use crate::block::Block;
use crate::cells::Cells;
use crate::sector_counts::SectorCounts;
use std::alloc::{AllocError, Allocator, Global};
use std::marker::Model;

/// The blocks of a picture's cells, by the sectors that they show. It takes eight bytes for each cell that shows a sector, as no
/// sector has more blocks than cells. It takes 24 bytes for each number up to the greatest shown sector's, and 28 while `of`
/// runs.
#[derive(Drop)]
pub struct Groups<A: Allocator = Global> {
    lists: Vec<Vec<Block, A>, A>,
}

impl<A: Allocator> Model for Groups<A> {
    ghost use Rattle.std.specs.Prelude.{◌≤◌, List, length, map};
    ghost use Rattle.map_cells.specs.declared.block.Block as block;

    ghost Value = { List (List block.Block) };

    ghost view = { λ g. map (λ list. list.items) g.lists.items };

    ghost invariant = { λ g. length g.lists.items ≤ 65536 };
}

impl<A: Allocator + Copy> Groups<A> {
    ghost use Rattle.map_cells.specs.Groups.{AreGroups};

    /// The blocks of cells, by what each shows.
    pub fn of<B: Allocator>(alloc: A, cells: &Cells<B>) -> Result<Groups<A>, AllocError>
        ensures { IfOk result (AreGroups (cell cells.now)) }
    {
        let counts = SectorCounts::of(alloc, cells)?;
        let mut lists = empty_lists(alloc, &counts, cells.sector_bound())?;
        for j in 0..cells.rows() {
            add_row(cells, j, &mut lists)?;
        }
        Ok(Groups { lists })
    }
}

impl<A: Allocator> Groups<A> {
    /// A number above each sector that a cell shows, at most 65,536.
    pub fn len(&self) -> usize
        ensures value { result ≡ length self.now }
        ensures few { result ≤ 65536 }
    {
        self.lists.len()
    }

    /// The blocks of a sector, by row and then by column; none where no cell shows it.
    pub fn blocks(&self, sector: usize) -> &[Block]
        requires { sector < length self.now }
        ensures { result.now ≡ slice_index_or self.now sector [] }
    {
        &self.lists[sector]
    }
}

// Lists without blocks. Each has room for as many blocks as cells show its sector; no sector has more blocks, so none of the
// lists grows.
fn empty_lists<A: Allocator + Copy>(
    alloc: A,
    counts: &SectorCounts<A>,
    count: usize,
) -> Result<Vec<Vec<Block, A>, A>, AllocError>
    ensures long { IfOk result (λ lists. length lists.items ≡ count) }
    ensures none { IfOk result (λ lists.
        (s : ℕ) → slice_index_or (map (λ list. list.items) lists.items) s [] ≡ []) }
    ensures room { IfOk result (λ lists.
        (s : ℕ) → s < count → slice_index_or (map vec_capacity lists.items) s 0 ≡ slice_index_or counts.now s 0) }
{
    let mut lists = Vec::with_capacity(alloc, count)?;
    for sector in 0..count {
        let cells = counts.get(sector);
        lists.push(Vec::with_capacity(alloc, cells as usize)?)?;
    }
    Ok(lists)
}

// Adds the blocks that begin in a row.
fn add_row<A: Allocator, B: Allocator>(
    cells: &Cells<B>,
    j: usize,
    lists: &mut [Vec<Block, A>],
) -> Result<(), AllocError>
    requires row { j < rows_of cells.now.grid }
    requires bound { (i j s : ℕ) → cell cells.now i j ≡ Some s → s < length lists.old }
    requires before { AreBlocksBefore (cell cells.now) 0 j (map (λ list. list.items) lists.old) }
    ensures after { OnOk result (AreBlocksBefore (cell cells.now) 0 (j + 1) (map (λ list. list.items) lists.new)) }
    ensures long { length lists.new ≡ length lists.old }
{
    let mut i = 0;
    while i < cells.columns() {
        // In a run, only its first cell begins a block.
        i = add_at(cells, i, j, lists)?;
    }
    Ok(())
}

// Adds the block that begins at a cell, if one does, and returns the first column after it whose cell shows something else.
#[inline]
fn add_at<A: Allocator, B: Allocator>(
    cells: &Cells<B>,
    i: usize,
    j: usize,
    lists: &mut [Vec<Block, A>],
) -> Result<usize, AllocError>
    requires column { i < columns_of cells.now.grid }
    requires row { j < rows_of cells.now.grid }
    requires bound { (i j s : ℕ) → cell cells.now i j ≡ Some s → s < length lists.old }
    ensures adds { OnOk result (AddsBlock (cell cells.now) i j (map (λ list. list.items) lists.old) (map (λ list. list.items) lists.new)) }
    ensures end { IfOk result (IsSameEnd cells.now i j) }
    ensures long { length lists.new ≡ length lists.old }
{
    let end = cells.same_end(i, j);
    let Some(sector) = cells.get(i, j) else {
        return Ok(end);
    };
    let Some(block) = cells.block_of_run(sector, i, j, end) else {
        return Ok(end);
    };
    push_block(lists, usize::from(sector), block)?;
    Ok(end)
}

// Puts a block behind those of a sector.
#[inline]
fn push_block<A: Allocator>(
    lists: &mut [Vec<Block, A>],
    sector: usize,
    block: Block,
) -> Result<(), AllocError>
    requires { sector < length lists.old }
    ensures pushes { OnOk result (PushesBlock sector block (map (λ list. list.items) lists.old) (map (λ list. list.items) lists.new)) }
    ensures long { length lists.new ≡ length lists.old }
{
    lists[sector].push(block)?;
    Ok(())
}
