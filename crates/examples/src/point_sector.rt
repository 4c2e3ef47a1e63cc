//! The ssector and the sector of a point, or all that is wrong with its level.

ghost use Rattle.std.specs.Prelude.{◌≡◌, Some, IfOk, IfErr, OnOk};
ghost use Rattle.map_audit.specs.Refusal.{Refuses};
ghost use Rattle.map_level.specs.SectorOf.{sector_of};
ghost use Rattle.map_tree.specs.Leaf.{IsLeaf};
ghost use Rattle.map_tree.specs.Sound.{IsSound};

use map_audit::{Refused, accept};
use map_geo::Point;
use map_level::Level;
use std::alloc::Allocator;

/// The ssector and the sector in which the game takes a point to be; of a level that isn't sound, all its findings.
pub fn locate<A: Allocator + Copy>(
    alloc: A,
    level: &Level<'_>,
    point: Point,
) -> Result<(u16, u16), Refused<A>>
    ensures sound { OnOk result (IsSound level.now) }
    ensures found { IfOk result (λ found.
        IsLeaf level.now point found.0 × (sector_of level.now found.0 ≡ Some found.1)) }
    ensures refused { IfErr result (Refuses level.now) }
{
    let tree = accept(alloc, level)?;
    let (ssector, _) = tree.leaf(point);
    let sector = tree.sector(point);
    Ok((ssector, sector))
}
