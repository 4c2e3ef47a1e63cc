//! Linedefs with an effect that harms by what lies around a sector, and their tags.

ghost use Rattle.std.specs.Prelude.{◌≡◌, ◌↔◌, ◌<◌, ℕ, false, length, slice_index_or, IfOk, IsTrue};
ghost use Rattle.map_level.specs.Links.{sectors_of};
ghost use Rattle.game_warnings.specs.Harm.{has_effect, HasEffectAt, HasEffectOn, HasEffectTag, IsEffectTag};
ghost use Rattle.game_warnings.specs.Tags.{AddsTags, AreTags};

use crate::tags::{TAG_COUNT, is_marked, mark, unmarked};
use crate::warning::Effect;
use game_numbers::{is_change, is_nearest};
use le_rec::LineDef;
use map_level::Level;
use map_level::links::linedef_at;
use std::alloc::{AllocError, Allocator};

// The special of a donut.
const DONUT: i16 = 9;

/// Whether a linedef's special has an effect.
pub fn has_effect(linedef: &LineDef, effect: Effect) -> bool
    ensures { result ≡ has_effect effect linedef.now.special }
{
    match effect {
        Effect::Donut => linedef.special == DONUT,
        Effect::Nearest => is_nearest(linedef.special),
        Effect::Change => is_change(linedef.special),
    }
}

/// Whether some linedef's special has an effect.
pub fn has_line(level: &Level<'_>, effect: Effect) -> bool
    ensures { IsTrue result ↔ ((i : ℕ) × HasEffectAt level.now effect i) }
{
    for i in 0..level.linedefs().len() {
        if has_effect_at(level, effect, i) {
            return true;
        }
    }
    false
}

fn has_effect_at(level: &Level<'_>, effect: Effect, i: usize) -> bool
    ensures { IsTrue result ↔ HasEffectAt level.now effect i }
{
    match linedef_at(level, i) {
        Some(linedef) => has_effect(&linedef, effect),
        None => false,
    }
}

/// The tags of linedefs with an effect. They take 64 KiB.
pub fn effect_tags<A: Allocator>(
    alloc: A,
    level: &Level<'_>,
    effect: Effect,
) -> Result<Vec<bool, A>, AllocError>
    ensures { IfOk result (λ tags. AreTags (IsEffectTag level.now effect) tags.items) }
{
    let mut tags = unmarked(alloc, TAG_COUNT)?;
    mark_linedefs(level, effect, &mut tags);
    Ok(tags)
}

fn mark_linedefs(level: &Level<'_>, effect: Effect, tags: &mut [bool])
    requires long { length tags.old ≡ 65536 }
    requires none { (n : ℕ) → slice_index_or tags.old n false ≡ false }
    ensures { AreTags (IsEffectTag level.now effect) tags.new }
{
    let linedefs = level.linedefs();
    for i in 0..linedefs.len() {
        mark_linedef(tags, effect, &linedefs.at(i));
    }
}

// Marks the tag of a linedef with an effect.
fn mark_linedef(tags: &mut [bool], effect: Effect, linedef: &LineDef)
    requires { length tags.old ≡ 65536 }
    ensures { AddsTags (λ tag. HasEffectOn effect tag linedef.now) tags.old tags.new }
{
    if !has_effect(linedef, effect) {
        return;
    }
    mark(tags, linedef.tag);
}

/// Whether a sector has the tag of a linedef with an effect.
pub fn has_effect_tag(level: &Level<'_>, effect: Effect, tags: &[bool], s: u32) -> bool
    requires tags { AreTags (IsEffectTag level.now effect) tags.now }
    requires within { s < length (sectors_of level.now) }
    ensures { IsTrue result ↔ HasEffectTag level.now effect s }
{
    // Only the clauses speak of the effect.
    let _effect = effect;
    is_marked(tags, level.sectors().at(s as usize).tag)
}
