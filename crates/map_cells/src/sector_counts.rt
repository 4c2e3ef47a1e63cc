//! How many cells show each sector.

ghost use Rattle.std.specs.Prelude.{◌≡◌, ◌+◌, ◌<◌, ◌≤◌, ℕ, Some, IfOk, IfSome, count_by, length, slice_index_or, if◌then◌else◌};
ghost use Rattle.std.specs.List.{slice_get};
ghost use Rattle.map_cells.specs.SectorCounts.{shows};

use crate::cells::Cells;
use crate::seen::Seen;
use std::alloc::{AllocError, Allocator, Global};
use std::marker::Model;

/// How many cells of a picture show each sector: four bytes a sector.
#[derive(Drop)]
pub struct SectorCounts<A: Allocator = Global> {
    counts: Vec<u32, A>,
}

impl<A: Allocator> Model for SectorCounts<A> {
    ghost use Rattle.std.specs.Prelude.{List, ℕ};

    ghost Value = { List ℕ };

    ghost view = { λ c. c.counts.items };
}

impl<A: Allocator> SectorCounts<A> {
    ghost use Rattle.map_cells.specs.SectorCounts.{AreCounts};

    /// The counts of all cells.
    pub fn of<B: Allocator>(alloc: A, cells: &Cells<B>) -> Result<SectorCounts<A>, AllocError>
        ensures { IfOk result (AreCounts cells.now) }
    {
        let mut counts = Vec::from_elem(alloc, 0, cells.sector_bound())?;
        count_cells(cells.seen(), &mut counts);
        Ok(SectorCounts { counts })
    }

    /// How many cells show a sector.
    pub fn get(&self, sector: usize) -> u32
        ensures { result ≡ slice_index_or self.now sector 0 }
    {
        if sector < self.counts.len() {
            self.counts[sector]
        } else {
            0
        }
    }
}

// Counts what cells show.
fn count_cells<A: Allocator>(seen: &Seen<A>, counts: &mut [u32])
    requires bound { (p s : ℕ) → slice_get seen.now p ≡ Some (Some s) → s < length counts.old }
    requires few { length seen.now ≤ 1048576 }
    requires none { (s : ℕ) → slice_index_or counts.old s 0 ≡ 0 }
    ensures told { (s : ℕ) → slice_index_or counts.new s 0 ≡ count_by (shows s) seen.now }
    ensures long { length counts.new ≡ length counts.old }
{
    let mut from = 0;
    while from < seen.len() {
        let end = seen.same_end(from, seen.len());
        count_run(seen.get(from), (end - from) as u32, counts);
        from = end;
    }
}

// Counts what so many cells show.
#[inline]
fn count_run(seen: Option<u16>, count: u32, counts: &mut [u32])
    requires there { IfSome seen (λ s. s < length counts.old) }
    requires few { IfSome seen (λ s. slice_index_or counts.old s 0 + count ≤ 1048576) }
    ensures told { (s : ℕ) → slice_index_or counts.new s 0 ≡ slice_index_or counts.old s 0 + (if shows s seen then count else 0) }
    ensures long { length counts.new ≡ length counts.old }
{
    if let Some(s) = seen {
        counts[usize::from(s)] += count;
    }
}
