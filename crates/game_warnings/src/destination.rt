//! W16: teleporters without a destination.

ghost use Rattle.std.specs.Prelude.{◌≡◌, ◌↔◌, ◌<◌, ℕ, false, length, pos, slice_index_or, IfNone, IfOk, IfSome, IsTrue};
ghost use Rattle.map_level.specs.Reading.{linedef_under};
ghost use Rattle.map_tree.specs.Sound.{IsSound};
ghost use Rattle.game_warnings.specs.Crossing.{Bars};
ghost use Rattle.game_warnings.specs.Destination.{HasDestination, HasNoDestination, LeadsNowhere, LeadsTo, StandsInNone, StandsInOne};
ghost use Rattle.game_warnings.specs.Skill.{is_placed};
ghost use Rattle.game_warnings.specs.Tags.{AddsTags, AreTags, HasTag, IsSectorTag};
ghost use Rattle.game_warnings.specs.declared.warning.Barrier.{Barrier};

use crate::crossing::bars;
use crate::skill::is_placed;
use crate::tags::{TAG_COUNT, is_marked, mark, unmarked};
use crate::warning::Barrier;
use game_numbers::is_teleport;
use le_rec::{LineDef, Thing};
use map_geo::Point;
use map_level::Level;
use map_level::links::linedef_at;
use map_tree::Tree;
use std::alloc::{AllocError, Allocator};

// The kind of a thing to which teleporters take.
const DESTINATION: i16 = 14;

/// The tags of sectors in which a destination stands, where the level is sound.
pub fn destination_tags<A: Allocator>(
    alloc: A,
    level: &Level<'_>,
    is_sound: bool,
) -> Result<Vec<bool, A>, AllocError>
    requires { IsTrue is_sound ↔ IsSound level.now }
    ensures long { IfOk result (λ tags. length tags.items ≡ 65536) }
    ensures stands { IfOk result (λ tags. IsSound level.now → AreTags (HasDestination level.now) tags.items) }
{
    if !is_sound {
        let none = unmarked(alloc, TAG_COUNT)?;
        return Ok(none);
    }
    let tags = tags_by_tree(alloc, level)?;
    Ok(tags)
}

fn tags_by_tree<A: Allocator>(alloc: A, level: &Level<'_>) -> Result<Vec<bool, A>, AllocError>
    requires { IsSound level.now }
    ensures { IfOk result (λ tags. AreTags (HasDestination level.now) tags.items) }
{
    let mut tags = unmarked(alloc, TAG_COUNT)?;
    mark_destinations(level, &Tree::of(level), &mut tags);
    Ok(tags)
}

fn mark_destinations(level: &Level<'_>, tree: &Tree<'_, '_>, tags: &mut [bool])
    requires tree { tree.now ≡ level.now }
    requires long { length tags.old ≡ 65536 }
    requires none { (n : ℕ) → slice_index_or tags.old n false ≡ false }
    ensures { AreTags (HasDestination level.now) tags.new }
{
    let things = level.things();
    for k in 0..things.len() {
        mark_thing(level, tree, tags, &things.at(k));
    }
}

// Marks the tag of the sector in which a thing stands that is a destination.
fn mark_thing(level: &Level<'_>, tree: &Tree<'_, '_>, tags: &mut [bool], thing: &Thing)
    requires tree { tree.now ≡ level.now }
    requires long { length tags.old ≡ 65536 }
    ensures { AddsTags (λ tag. LeadsTo level.now tag thing.now) tags.old tags.new }
{
    if !is_destination(thing) {
        return;
    }
    let Some(sector) = sector_under(tree, thing) else {
        return;
    };
    mark_sector(level, tags, sector);
}

fn is_destination(thing: &Thing) -> bool
    ensures { IsTrue result ↔ ((thing.now.kind ≡ pos 14) × IsTrue (is_placed thing.now)) }
{
    thing.kind == DESTINATION && is_placed(thing)
}

// The sector in which a thing stands, where its place is in range.
fn sector_under(tree: &Tree<'_, '_>, thing: &Thing) -> Option<u16>
    ensures some { IfSome result (StandsInOne tree.now thing.now.x thing.now.y) }
    ensures none { IfNone result (StandsInNone tree.now thing.now.x thing.now.y) }
{
    sector_at(tree, i32::from(thing.x), i32::from(thing.y))
}

fn sector_at(tree: &Tree<'_, '_>, x: i32, y: i32) -> Option<u16>
    ensures some { IfSome result (StandsInOne tree.now x y) }
    ensures none { IfNone result (StandsInNone tree.now x y) }
{
    let point = Point::new(x, y)?;
    // Only the clauses speak of the ssector.
    let (_ssector, _tests) = tree.leaf(point);
    Some(tree.sector(point))
}

// Marks the tag of a sector.
fn mark_sector(level: &Level<'_>, tags: &mut [bool], s: u16)
    requires { length tags.old ≡ 65536 }
    ensures { AddsTags (HasTag level.now s) tags.old tags.new }
{
    let Some(sector) = level.sectors().get(usize::from(s)) else {
        return;
    };
    mark(tags, sector.tag);
}

/// Whether the linedef of a number takes nowhere, though a sector has its tag. It is asked for in a sound level alone.
pub fn has_no_destination(
    level: &Level<'_>,
    is_sound: bool,
    sectors: &[bool],
    stands: &[bool],
    i: u32,
) -> bool
    requires sound { IsTrue is_sound ↔ IsSound level.now }
    requires sectors { AreTags (IsSectorTag level.now) sectors.now }
    requires stands { IsSound level.now → AreTags (HasDestination level.now) stands.now }
    ensures { IsTrue result ↔ HasNoDestination level.now i }
{
    if !is_sound {
        return false;
    }
    match linedef_at(level, i as usize) {
        Some(linedef) => leads_nowhere(level, sectors, stands, &linedef),
        None => false,
    }
}

fn leads_nowhere(level: &Level<'_>, sectors: &[bool], stands: &[bool], linedef: &LineDef) -> bool
    requires sectors { AreTags (IsSectorTag level.now) sectors.now }
    requires stands { AreTags (HasDestination level.now) stands.now }
    ensures { IsTrue result ↔ LeadsNowhere level.now (linedef_under level.now.reading linedef.now) }
{
    if !is_teleport(linedef.special) {
        return false;
    }
    if is_barred_somehow(level, linedef) {
        return false;
    }
    is_lost(level, sectors, stands, linedef)
}

// Whether a sector has a linedef's tag, and no destination stands in one.
fn is_lost(level: &Level<'_>, sectors: &[bool], stands: &[bool], linedef: &LineDef) -> bool
    requires sectors { AreTags (IsSectorTag level.now) sectors.now }
    requires stands { AreTags (HasDestination level.now) stands.now }
    ensures { IsTrue result ↔ (IsSectorTag level.now linedef.now.tag × (¬ HasDestination level.now linedef.now.tag)) }
{
    // Only the clauses speak of the level.
    let _level = level;
    is_marked(sectors, linedef.tag) && !is_marked(stands, linedef.tag)
}

fn is_barred_somehow(level: &Level<'_>, linedef: &LineDef) -> bool
    ensures { IsTrue result ↔ ((barrier : Barrier) × Bars level.now (linedef_under level.now.reading linedef.now) barrier) }
{
    bars(level, linedef, Barrier::NoBack) || bars(level, linedef, Barrier::LetsNone)
}
