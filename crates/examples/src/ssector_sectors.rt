//! The sector of each ssector, by the links alone: for a program that descends through the nodes itself.

ghost use Rattle.std.specs.Prelude.{◌≡◌, IfOk, MatchOption};
ghost use Rattle.map_level.specs.SectorOf.{IsLinked};
ghost use Rattle.examples.specs.SsectorSectors.{AreSectors};

use map_level::{Level, link_findings};
use std::alloc::{AllocError, Allocator};

/// For each ssector of a level, in order, its sector; no list where a link is at fault.
pub fn sectors_of_ssectors<A: Allocator + Copy>(
    alloc: A,
    level: &Level<'_>,
) -> Result<Option<Vec<u16, A>>, AllocError>
    ensures { IfOk result (λ found. MatchOption found (¬ IsLinked level.now)
        (λ sectors. AreSectors level.now sectors.items)) }
{
    let found = link_findings(alloc, level)?;
    if !level.is_linked(&found) {
        return Ok(None);
    }
    let sectors = linked_sectors(alloc, level)?;
    Ok(Some(sectors))
}

// The sector of each ssector of a level whose links hold.
fn linked_sectors<A: Allocator + Copy>(
    alloc: A,
    level: &Level<'_>,
) -> Result<Vec<u16, A>, AllocError>
    requires { IsLinked level.now }
    ensures { IfOk result (λ sectors. AreSectors level.now sectors.items) }
{
    let mut sectors = Vec::new(alloc);
    for number in 0..level.ssectors().len() {
        sectors.push(level.ssector_sector(number as u32))?;
    }
    Ok(sectors)
}
