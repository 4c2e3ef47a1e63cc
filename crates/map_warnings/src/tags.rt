//! W4: linedefs that act on sectors by a tag that no sector has.

ghost use Rattle.std.specs.Prelude.{◌≡◌, ◌≢◌, ◌+◌, ◌↔◌, ℕ, false, length, pos, slice_index_or};
ghost use Rattle.std.specs.Prelude.{IfOk, IsTrue};
ghost use Rattle.std.specs.Int.{cast_unsigned};
ghost use Rattle.map_warnings.specs.Special.{GoesByTag};
ghost use Rattle.map_warnings.specs.Tag.{AreTags, IsSectorTag, IsUntagged};
ghost use Rattle.map_warnings.specs.Warnings.{Tells};
ghost use Rattle.map_warnings.specs.Holds.{HoldsOf};

use crate::special::goes_by_tag;
use crate::told::{Told, tell_where};
use crate::warning::Warning;
use le_rec::LineDef;
use level_codes::WarningCode;
use map_level::Level;
use map_level::links::linedef_at;
use std::alloc::{AllocError, Allocator};

// How many tags there are, which have 16 bits.
const TAG_COUNT: usize = 65536;

/// W4 of a level: its linedefs whose special goes by a tag that no sector has. It takes 64 KiB for the sectors' tags.
pub fn untagged<A: Allocator + Copy>(
    alloc: A,
    level: &Level<'_>,
    most: usize,
) -> Result<Told<A>, AllocError>
    ensures told { IfOk result (λ told. Tells (HoldsOf level.now WarningCode.W4) told) }
    ensures most { IfOk result (λ told. told.most ≡ most) }
{
    let tags = tags_of(alloc, level)?;
    tell_untagged(alloc, level, &tags, most)
}

fn tell_untagged<A: Allocator>(
    alloc: A,
    level: &Level<'_>,
    tags: &[bool],
    most: usize,
) -> Result<Told<A>, AllocError>
    requires { AreTags level.now tags.now }
    ensures told { IfOk result (λ told. Tells (HoldsOf level.now WarningCode.W4) told) }
    ensures most { IfOk result (λ told. told.most ≡ most) }
{
    let mut told = Told::new(alloc, most);
    for i in 0..level.linedefs().len() {
        let linedef = i as u32;
        tell_where(
            &mut told,
            level,
            WarningCode::W4,
            Warning::Untagged { linedef },
            is_untagged(level, tags, linedef),
        )?;
    }
    Ok(told)
}

// Whether a linedef's special goes by a tag that no sector has.
fn is_untagged(level: &Level<'_>, tags: &[bool], i: u32) -> bool
    requires { AreTags level.now tags.now }
    ensures { IsTrue result ↔ IsUntagged level.now i }
{
    match linedef_at(level, i as usize) {
        Some(linedef) => acts_on_none(level, tags, &linedef),
        None => false,
    }
}

fn acts_on_none(level: &Level<'_>, tags: &[bool], linedef: &LineDef) -> bool
    requires { AreTags level.now tags.now }
    ensures { IsTrue result ↔ (GoesByTag linedef.now.special × (linedef.now.tag ≢ pos 0)
        × (¬ IsSectorTag level.now linedef.now.tag)) }
{
    goes_by_tag(linedef.special) && is_of_none(level, tags, linedef.tag)
}

// Whether a tag isn't 0, and no sector has it.
fn is_of_none(level: &Level<'_>, tags: &[bool], tag: i16) -> bool
    requires { AreTags level.now tags.now }
    ensures { IsTrue result ↔ ((tag ≢ pos 0) × (¬ IsSectorTag level.now tag)) }
{
    tag != 0 && !is_sector_tag(level, tags, tag)
}

// Whether some sector has a tag.
fn is_sector_tag(level: &Level<'_>, tags: &[bool], tag: i16) -> bool
    requires { AreTags level.now tags.now }
    ensures { IsTrue result ↔ IsSectorTag level.now tag }
{
    // Only the clauses speak of the level.
    let _level = level;
    tags[tag.cast_unsigned() as usize]
}

// The tags of a level's sectors.
fn tags_of<A: Allocator>(alloc: A, level: &Level<'_>) -> Result<Vec<bool, A>, AllocError>
    ensures { IfOk result (λ tags. AreTags level.now tags.items) }
{
    let mut tags = unmarked(alloc, TAG_COUNT)?;
    mark_tags(level, &mut tags);
    Ok(tags)
}

// So many marks, none of them set.
fn unmarked<A: Allocator>(alloc: A, count: usize) -> Result<Vec<bool, A>, AllocError>
    ensures long { IfOk result (λ marks. length marks.items ≡ count) }
    ensures none { IfOk result (λ marks. (n : ℕ) → slice_index_or marks.items n false ≡ false) }
{
    Vec::from_elem(alloc, false, count)
}

// Marks the tags of a level's sectors.
fn mark_tags(level: &Level<'_>, tags: &mut [bool])
    requires long { length tags.old ≡ 65536 }
    requires none { (n : ℕ) → slice_index_or tags.old n false ≡ false }
    ensures { AreTags level.now tags.new }
{
    let sectors = level.sectors();
    'sectors: for s in 0..sectors.len() {
        tags[sectors.at(s).tag.cast_unsigned() as usize] = true;
    }
}
