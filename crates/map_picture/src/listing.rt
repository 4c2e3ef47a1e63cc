//! The sectors that cells show, with their blocks and how many cells they are.

ghost use Rattle.std.specs.Prelude.{◌≡◌, ◌+◌, ◌<◌, ◌≤◌, IfOk, OnOk, length};
ghost use Rattle.map_picture.specs.Listing.{AreListed};

use crate::sectors::SectorCells;
use map_cells::{Groups, SectorCounts};
use std::alloc::{AllocError, Allocator};

/// The sectors that have cells, ascending.
pub fn listed<'g, A: Allocator>(
    alloc: A,
    groups: &'g Groups<A>,
    counts: &SectorCounts<A>,
) -> Result<Vec<SectorCells<'g>, A>, AllocError>
    ensures { IfOk result (λ list. AreListed groups.entry.now counts.now (length groups.entry.now) list.items) }
{
    let mut list = Vec::new(alloc);
    for sector in 0..groups.len() {
        list_sector(groups, counts, sector, &mut list)?;
    }
    Ok(list)
}

// Adds a sector, where it has cells.
fn list_sector<'g, A: Allocator>(
    groups: &'g Groups<A>,
    counts: &SectorCounts<A>,
    sector: usize,
    list: &mut Vec<SectorCells<'g>, A>,
) -> Result<(), AllocError>
    requires there { sector < length groups.now }
    requires low { sector < 65536 }
    requires before { AreListed groups.now counts.now sector list.old.items }
    ensures { OnOk result (AreListed groups.entry.now counts.now (sector + 1) list.new.items) }
{
    let cells = counts.get(sector);
    if cells > 0 {
        list.push(SectorCells {
            number: sector as u16,
            blocks: groups.blocks(sector),
            cells,
        })?;
    }
    Ok(())
}
