//! Tags of a kind, by a mark for each tag.

ghost use Rattle.std.specs.Prelude.{◌≡◌, ◌+◌, ◌<◌, ℕ, false, length, slice_index_or, IfOk};
ghost use Rattle.game_warnings.specs.Tags.{mark_of, AddsTags, AreTags, HasTag, IsSectorTag};

use map_level::Level;
use std::alloc::{AllocError, Allocator};

/// How many tags there are, which have 16 bits.
pub const TAG_COUNT: usize = 65536;

/// So many marks, none of them set.
pub fn unmarked<A: Allocator>(alloc: A, count: usize) -> Result<Vec<bool, A>, AllocError>
    ensures long { IfOk result (λ marks. length marks.items ≡ count) }
    ensures none { IfOk result (λ marks. (n : ℕ) → slice_index_or marks.items n false ≡ false) }
{
    Vec::from_elem(alloc, false, count)
}

/// Sets the mark of a tag.
pub fn mark(marks: &mut [bool], tag: i16)
    requires { length marks.old ≡ 65536 }
    ensures { AddsTags (λ other. other ≡ tag) marks.old marks.new }
{
    marks[tag.cast_unsigned() as usize] = true;
}

/// Whether the mark of a tag is set.
#[inline]
pub fn is_marked(marks: &[bool], tag: i16) -> bool
    requires { length marks.now ≡ 65536 }
    ensures { result ≡ mark_of marks.now tag }
{
    marks[tag.cast_unsigned() as usize]
}

/// The tags of a level's sectors.
pub fn sector_tags<A: Allocator>(alloc: A, level: &Level<'_>) -> Result<Vec<bool, A>, AllocError>
    ensures { IfOk result (λ marks. AreTags (IsSectorTag level.now) marks.items) }
{
    let mut marks = unmarked(alloc, TAG_COUNT)?;
    mark_sectors(level, &mut marks);
    Ok(marks)
}

fn mark_sectors(level: &Level<'_>, marks: &mut [bool])
    requires long { length marks.old ≡ 65536 }
    requires none { (n : ℕ) → slice_index_or marks.old n false ≡ false }
    ensures { AreTags (IsSectorTag level.now) marks.new }
{
    let sectors = level.sectors();
    for s in 0..sectors.len() {
        mark(marks, sectors.at(s).tag);
    }
}
