//! The sector of each thing of a level.

ghost use Rattle.std.specs.Prelude.{◌≡◌, IfOk, MatchOption};
ghost use Rattle.map_tree.specs.Sound.{IsSound};
ghost use Rattle.examples.specs.ThingSectors.{StandIn, StandsIn};

use le_rec::{Table, Thing};
use map_audit::sound_tree;
use map_geo::Point;
use map_level::Level;
use map_tree::SectorTree;
use std::alloc::{AllocError, Allocator};

/// For each thing of a level, in order, the sector in which it is, or None if its place is out of range; no
/// list if the level isn't sound.
pub fn sectors_of_things<A: Allocator + Copy>(
    alloc: A,
    level: &Level<'_>,
) -> Result<Option<Vec<Option<u16>, A>>, AllocError>
    ensures { IfOk result (λ found. MatchOption found (¬ IsSound level.now)
        (λ sectors. StandIn level.now level.now.things.records sectors.items)) }
{
    let Some(tree) = sound_tree(alloc, level)? else {
        return Ok(None);
    };
    let tree = SectorTree::of(alloc, tree)?;
    let sectors = stand_in(alloc, &tree, &level.things())?;
    Ok(Some(sectors))
}

// The sector of each thing.
fn stand_in<A: Allocator + Copy>(
    alloc: A,
    tree: &SectorTree<'_, '_, A>,
    things: &Table<'_, Thing>,
) -> Result<Vec<Option<u16>, A>, AllocError>
    ensures { IfOk result (λ sectors. StandIn tree.now things.now.records sectors.items) }
{
    let mut sectors = Vec::new(alloc);
    for number in 0..things.len() {
        sectors.push(stands_in(tree, &things.at(number)))?;
    }
    Ok(sectors)
}

// The sector of one.
fn stands_in<A: Allocator>(tree: &SectorTree<'_, '_, A>, thing: &Thing) -> Option<u16>
    ensures { StandsIn tree.now thing.now result }
{
    let point = Point::new(i32::from(thing.x), i32::from(thing.y))?;
    let (_ssector, sector) = tree.leaf(point);
    Some(sector)
}
