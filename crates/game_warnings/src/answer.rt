//! How many sectors answer each tag.

ghost use Rattle.std.specs.Prelude.{◌≡◌, ◌+◌, ◌<◌, ◌≤◌, ◌^◌, ℕ, length, slice_index_or, IfOk};
ghost use Rattle.game_warnings.specs.Effect.{answer_count, AddsAnswer, AreAnswers};

use crate::tags::TAG_COUNT;
use game_numbers::is_timed_door;
use le_rec::Sector;
use map_level::Level;
use std::alloc::{AllocError, Allocator};

/// For each tag how many sectors have it and no door from the start. It takes 256 KiB.
pub fn answers_of<A: Allocator>(alloc: A, level: &Level<'_>) -> Result<Vec<u32, A>, AllocError>
    ensures { IfOk result (λ counts. AreAnswers level.now counts.items) }
{
    let mut counts = uncounted(alloc, TAG_COUNT)?;
    count_answers(level, &mut counts);
    Ok(counts)
}

// So many counts, all of them 0.
fn uncounted<A: Allocator>(alloc: A, count: usize) -> Result<Vec<u32, A>, AllocError>
    ensures long { IfOk result (λ counts. length counts.items ≡ count) }
    ensures none { IfOk result (λ counts. (n : ℕ) → slice_index_or counts.items n 0 ≡ 0) }
{
    Vec::from_elem(alloc, 0, count)
}

fn count_answers(level: &Level<'_>, counts: &mut [u32])
    requires long { length counts.old ≡ 65536 }
    requires none { (n : ℕ) → slice_index_or counts.old n 0 ≡ 0 }
    ensures { AreAnswers level.now counts.new }
{
    let sectors = level.sectors();
    for s in 0..sectors.len() {
        count_answer(counts, &sectors.at(s), s);
    }
}

// Counts a sector, behind so many others.
fn count_answer(counts: &mut [u32], sector: &Sector, s: usize)
    requires long { length counts.old ≡ 65536 }
    requires behind { s < 2 ^ 31 }
    requires few { (n : ℕ) → slice_index_or counts.old n 0 ≤ s }
    ensures adds { AddsAnswer sector.now counts.old counts.new }
    ensures few { (n : ℕ) → slice_index_or counts.new n 0 ≤ s + 1 }
{
    // Only the clauses speak of how many were counted.
    let _behind = s;
    if is_timed_door(sector.special) {
        return;
    }
    counts[sector.tag.cast_unsigned() as usize] += 1;
}

/// How many sectors answer a tag.
#[inline]
pub fn answers_at(level: &Level<'_>, counts: &[u32], tag: i16) -> u32
    requires { AreAnswers level.now counts.now }
    ensures { result ≡ answer_count level.now tag }
{
    // Only the clauses speak of the level.
    let _level = level;
    counts[tag.cast_unsigned() as usize]
}
