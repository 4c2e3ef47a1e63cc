//! The names of the textures that a lump lists.

ghost use Rattle.std.specs.Prelude.{◌≡◌, ◌↔◌, ◌+◌, ◌*◌, ◌<◌, ◌≤◌, ℕ, List, length, IfNone, IfSome, OnOk};
ghost use Rattle.le_rec.specs.Name.{query_of};
ghost use Rattle.map_warnings.specs.Listed.{HasFewOffsets, HasOffset, IsNameAt, ListsTexture};
ghost use Rattle.map_warnings.specs.NameNumber.{AddsNames};

use crate::names::push_name;
use le_rec::Name8;
use le_rec::number::i32_at;
use std::alloc::{AllocError, Allocator};

/// Adds the names of the textures that a lump lists, as many as it has offsets at most.
pub fn push_textures<A: Allocator>(numbers: &mut Vec<u64, A>, lump: &[u8]) -> Result<(), AllocError>
    ensures adds { OnOk result (AddsNames (ListsTexture lump.now) numbers.old.items numbers.new.items) }
    ensures few { OnOk result ((n : ℕ) → HasFewOffsets lump.now n
        → length numbers.new.items ≤ length numbers.old.items + n) }
{
    for k in 0..offset_count(lump) {
        push_texture(numbers, lump, k)?;
    }
    Ok(())
}

// How many of the offsets that a lump's count announces are inside the lump.
fn offset_count(lump: &[u8]) -> usize
    ensures { (k : ℕ) → (k < result) ↔ HasOffset lump.now k }
{
    if lump.len() < 8 {
        return 0;
    }
    let count = i32_at(lump, 0).max(0).cast_unsigned();
    ((lump.len() - 4) / 4).min(count as usize)
}

// Adds the name at the offset of a number, where there is one.
fn push_texture<A: Allocator>(
    numbers: &mut Vec<u64, A>,
    lump: &[u8],
    k: usize,
) -> Result<(), AllocError>
    requires { 4 * k + 8 ≤ length lump.now }
    ensures adds { OnOk result (AddsNames (IsNameAt lump.now k) numbers.old.items numbers.new.items) }
    ensures few { OnOk result (length numbers.new.items ≤ length numbers.old.items + 1) }
{
    match name_at(lump, k) {
        Some(name) => push_name(numbers, name),
        None => Ok(()),
    }
}

// The name at the offset of a number, if its bytes are inside the lump.
fn name_at(lump: &[u8], k: usize) -> Option<Name8>
    requires { 4 * k + 8 ≤ length lump.now }
    ensures some { IfSome result (IsNameAt lump.now k) }
    ensures none { IfNone result ((name : List ℕ) → ¬ IsNameAt lump.now k name) }
{
    let offset = i32_at(lump, 4 * k + 4);
    if offset < 0 {
        return None;
    }
    let at = offset as usize;
    if at + 8 > lump.len() {
        return None;
    }
    Some(Name8::query(&lump[at..at + 8]))
}
