//! W22: limits of the game's arrays, and of its savegames.

ghost use Rattle.std.specs.Prelude.{◌≡◌, ◌↔◌, Some, ◌+◌, ◌<◌, ◌^◌, ℕ, ℤ, false, length, pos, slice_index_or, IfOk, IsTrue, OnOk};
ghost use Rattle.std.specs.Ordering.{int_eq};
ghost use Rattle.game_numbers.specs.Number.{is_one_of};
ghost use Rattle.game_numbers.specs.Specials.{scrolling};
ghost use Rattle.game_warnings.specs.Limit.{deathmatch_count, is_perpetual_tag, perpetual_count, scrolling_count, is_perpetual_at, IsPerpetual};
ghost use Rattle.game_warnings.specs.Tags.{mark_of, AddsTags, AreTags};
ghost use Rattle.game_warnings.specs.Warnings.{Tells, TellsBelow};
ghost use Rattle.game_warnings.specs.Holds.{HoldsIn, HoldsOf};

use crate::code::GameCode;
use crate::count::counted;
use crate::graphics::Graphics;
use crate::save::saved;
use crate::tags::{TAG_COUNT, is_marked, mark, unmarked};
use crate::told::{Told, tell_among, tell_where};
use crate::warning::GameWarning;
use game_numbers::{is_perpetual, is_scrolling};
use le_rec::{LineDef, Sector, Thing};
use map_level::Level;
use std::alloc::{AllocError, Allocator};

// The most scrolling linedefs, platforms that go up and down for ever, and deathmatch starts, and the longest savegame in bytes.
const MOST_SCROLLING: u32 = 64;

const MOST_PLATFORMS: u32 = 30;

const MOST_STARTS: u32 = 10;

const LONGEST_SAVE: u64 = 180_224;

// The kind of a thing that is a deathmatch start.
const DEATHMATCH: i16 = 11;

/// W22 of a level. It takes 64 KiB for tags.
pub fn limits<A: Allocator + Copy>(
    alloc: A,
    level: &Level<'_>,
    most: usize,
) -> Result<Told<A>, AllocError>
    ensures told { IfOk result (λ told. Tells (HoldsOf level.now GameCode.W22) told) }
    ensures most { IfOk result (λ told. told.most ≡ most) }
{
    let platforms = perpetual_count(alloc, level)?;
    tell_limits(alloc, level, platforms, most)
}

/// The same of a level whose textures are those of some files: the first that lacks a patch is told, too.
pub fn limits_among<A: Allocator + Copy>(
    alloc: A,
    level: &Level<'_>,
    graphics: &Graphics<'_, '_, A>,
    most: usize,
) -> Result<Told<A>, AllocError>
    ensures told { IfOk result (λ told. Tells (HoldsIn (Some graphics.now) level.now GameCode.W22) told) }
    ensures most { IfOk result (λ told. told.most ≡ most) }
{
    let mut told = limits(alloc, level, most)?;
    tell_patch(&mut told, level, graphics)?;
    Ok(told)
}

fn tell_patch<A: Allocator>(
    told: &mut Told<A>,
    level: &Level<'_>,
    graphics: &Graphics<'_, '_, A>,
) -> Result<(), AllocError>
    requires { TellsBelow (HoldsIn (Some graphics.now) level.now GameCode.W22) 4 told.old }
    ensures told { OnOk result (TellsBelow (HoldsIn (Some graphics.now) level.now GameCode.W22) 5 told.new) }
    ensures most { OnOk result (told.new.most ≡ told.old.most) }
{
    let Some(texture) = graphics.lacking() else {
        return Ok(());
    };
    let warning = GameWarning::LacksPatch { texture };
    tell_among(told, level, graphics, GameCode::W22, warning, true)
}

fn tell_limits<A: Allocator>(
    alloc: A,
    level: &Level<'_>,
    platforms: u32,
    most: usize,
) -> Result<Told<A>, AllocError>
    requires { platforms ≡ perpetual_count level.now }
    ensures told { IfOk result (λ told. Tells (HoldsOf level.now GameCode.W22) told) }
    ensures most { IfOk result (λ told. told.most ≡ most) }
{
    let mut told = Told::new(alloc, most);
    tell_scrolling(&mut told, level)?;
    tell_platforms(&mut told, level, platforms)?;
    tell_rest(&mut told, level)?;
    Ok(told)
}

fn tell_scrolling<A: Allocator>(told: &mut Told<A>, level: &Level<'_>) -> Result<(), AllocError>
    requires { TellsBelow (HoldsOf level.now GameCode.W22) 0 told.old }
    ensures told { OnOk result (TellsBelow (HoldsOf level.now GameCode.W22) 1 told.new) }
    ensures most { OnOk result (told.new.most ≡ told.old.most) }
{
    let linedefs = scrolling_count(level);
    let warning = GameWarning::ManyScrolling { linedefs };
    let holds = linedefs > MOST_SCROLLING;
    tell_where(told, level, GameCode::W22, warning, holds)
}

fn tell_platforms<A: Allocator>(
    told: &mut Told<A>,
    level: &Level<'_>,
    sectors: u32,
) -> Result<(), AllocError>
    requires sectors { sectors ≡ perpetual_count level.now }
    requires below { TellsBelow (HoldsOf level.now GameCode.W22) 1 told.old }
    ensures told { OnOk result (TellsBelow (HoldsOf level.now GameCode.W22) 2 told.new) }
    ensures most { OnOk result (told.new.most ≡ told.old.most) }
{
    let warning = GameWarning::ManyPerpetual { sectors };
    let holds = sectors > MOST_PLATFORMS;
    tell_where(told, level, GameCode::W22, warning, holds)
}

fn tell_rest<A: Allocator>(told: &mut Told<A>, level: &Level<'_>) -> Result<(), AllocError>
    requires { TellsBelow (HoldsOf level.now GameCode.W22) 2 told.old }
    ensures told { OnOk result (TellsBelow (HoldsOf level.now GameCode.W22) 4 told.new) }
    ensures most { OnOk result (told.new.most ≡ told.old.most) }
{
    tell_starts(told, level)?;
    tell_save(told, level)
}

fn tell_starts<A: Allocator>(told: &mut Told<A>, level: &Level<'_>) -> Result<(), AllocError>
    requires { TellsBelow (HoldsOf level.now GameCode.W22) 2 told.old }
    ensures told { OnOk result (TellsBelow (HoldsOf level.now GameCode.W22) 3 told.new) }
    ensures most { OnOk result (told.new.most ≡ told.old.most) }
{
    let starts = deathmatch_count(level);
    let warning = GameWarning::ManyStarts { starts };
    let holds = starts > MOST_STARTS;
    tell_where(told, level, GameCode::W22, warning, holds)
}

fn tell_save<A: Allocator>(told: &mut Told<A>, level: &Level<'_>) -> Result<(), AllocError>
    requires { TellsBelow (HoldsOf level.now GameCode.W22) 3 told.old }
    ensures told { OnOk result (TellsBelow (HoldsOf level.now GameCode.W22) 4 told.new) }
    ensures most { OnOk result (told.new.most ≡ told.old.most) }
{
    let bytes = saved(level);
    let warning = GameWarning::LongSave { bytes };
    let holds = bytes > LONGEST_SAVE;
    tell_where(told, level, GameCode::W22, warning, holds)
}

// How many linedefs scroll.
fn scrolling_count(level: &Level<'_>) -> u32
    ensures { result ≡ scrolling_count level.now }
{
    let linedefs = level.linedefs();
    let mut count = 0;
    for i in 0..linedefs.len() {
        count = counted(count, scrolls(&linedefs.at(i)));
    }
    count
}

fn scrolls(linedef: &LineDef) -> bool
    ensures { result ≡ is_one_of scrolling linedef.now.special }
{
    is_scrolling(linedef.special)
}

// How many things are deathmatch starts.
fn deathmatch_count(level: &Level<'_>) -> u32
    ensures { result ≡ deathmatch_count level.now }
{
    let things = level.things();
    let mut count = 0;
    for k in 0..things.len() {
        count = counted(count, is_deathmatch(&things.at(k)));
    }
    count
}

fn is_deathmatch(thing: &Thing) -> bool
    ensures { result ≡ int_eq thing.now.kind (pos 11) }
{
    thing.kind == DEATHMATCH
}

// How many sectors have platforms that go up and down for ever, once all are started.
fn perpetual_count<A: Allocator>(alloc: A, level: &Level<'_>) -> Result<u32, AllocError>
    ensures { IfOk result (λ count. count ≡ perpetual_count level.now) }
{
    let tags = perpetual_tags(alloc, level)?;
    Ok(count_tagged(level, &tags))
}

fn count_tagged(level: &Level<'_>, tags: &[bool]) -> u32
    requires { AreTags (IsPerpetual level.now) tags.now }
    ensures { result ≡ perpetual_count level.now }
{
    let sectors = level.sectors();
    let mut count = 0;
    for s in 0..sectors.len() {
        count = counted(count, is_perpetual_sector(level, tags, &sectors.at(s)));
    }
    count
}

fn is_perpetual_sector(level: &Level<'_>, tags: &[bool], sector: &Sector) -> bool
    requires { AreTags (IsPerpetual level.now) tags.now }
    ensures { result ≡ is_perpetual_tag level.now sector.now.tag }
{
    // Only the clauses speak of the level.
    let _level = level;
    is_marked(tags, sector.tag)
}

// The tags of linedefs whose platforms go up and down for ever.
fn perpetual_tags<A: Allocator>(alloc: A, level: &Level<'_>) -> Result<Vec<bool, A>, AllocError>
    ensures { IfOk result (λ tags. AreTags (IsPerpetual level.now) tags.items) }
{
    let mut tags = unmarked(alloc, TAG_COUNT)?;
    mark_perpetual(level, &mut tags);
    Ok(tags)
}

fn mark_perpetual(level: &Level<'_>, tags: &mut [bool])
    requires long { length tags.old ≡ 65536 }
    requires none { (n : ℕ) → slice_index_or tags.old n false ≡ false }
    ensures { AreTags (IsPerpetual level.now) tags.new }
{
    let linedefs = level.linedefs();
    for i in 0..linedefs.len() {
        mark_linedef(tags, &linedefs.at(i));
    }
}

fn mark_linedef(tags: &mut [bool], linedef: &LineDef)
    requires { length tags.old ≡ 65536 }
    ensures { AddsTags (λ tag. IsTrue (is_perpetual_at linedef.now tag)) tags.old tags.new }
{
    if !is_perpetual(linedef.special) {
        return;
    }
    mark(tags, linedef.tag);
}
