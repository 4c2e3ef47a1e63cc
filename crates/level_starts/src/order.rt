//! The ten lumps of a level in another order than the usual.

ghost use Rattle.std.specs.Prelude.{◌≡◌, ℕ, ◌<◌, ◌≤◌, ◌↔◌, length, IfSome, IfNone, IsTrue};
ghost use Rattle.wad_dir.specs.Entries.{joined, names};
ghost use Rattle.level_starts.specs.Order.{AreAmong, HasNameOf, IsAmong, IsInPlace};
ghost use Rattle.level_starts.specs.Starts.{LevelStartsAt};

use crate::starts::is_named;
use map_level::usual_name;
use std::alloc::Allocator;
use wad_dir::Set;

/// Which lump has place k of the level that starts at an entry, if all ten are there in some order. Both are told by their usual
/// places, from 1 to 10. For a level whose first lump out of place is that of place k this is a later one.
pub fn lump_in_place<A: Allocator>(set: &Set<'_, A>, g: usize, k: u32) -> Option<u32>
    requires { LevelStartsAt (names set.now) g }
    ensures some { IfSome result (IsInPlace (names set.now) g k) }
    ensures none { IfNone result ((j : ℕ) → ¬ IsInPlace (names set.now) g k j) }
{
    let total = set.total();
    if !are_among(set, g, total) {
        return None;
    }
    place_named(set, g, total, k as usize)
}

// Whether all ten lumps are among those behind a label.
fn are_among<A: Allocator>(set: &Set<'_, A>, g: usize, total: usize) -> bool
    requires total { total ≡ length (joined set.now) }
    requires listed { g < total }
    ensures { IsTrue result ↔ AreAmong (names set.now) g 11 }
{
    for j in 1..11 {
        if !is_among(set, g, total, j) {
            return false;
        }
    }
    true
}

// Whether the lump of place j is among the ten behind a label.
fn is_among<A: Allocator>(set: &Set<'_, A>, g: usize, total: usize, j: usize) -> bool
    requires total { total ≡ length (joined set.now) }
    requires listed { g < total }
    requires from { 1 ≤ j }
    requires to { j ≤ 10 }
    ensures { IsTrue result ↔ IsAmong (names set.now) g j }
{
    for k in 1..11 {
        if has_name_of(set, g, total, k, j) {
            return true;
        }
    }
    false
}

// The first place from 1 to 10 whose usual name place k has.
fn place_named<A: Allocator>(set: &Set<'_, A>, g: usize, total: usize, k: usize) -> Option<u32>
    requires total { total ≡ length (joined set.now) }
    requires listed { g < total }
    ensures some { IfSome result (λ j. (1 ≤ j) × (j ≤ 10) × HasNameOf (names set.now) g k j) }
    ensures none { IfNone result ((j : ℕ) → 1 ≤ j → j < 11 → ¬ HasNameOf (names set.now) g k j) }
{
    for j in 1..11 {
        if has_name_of(set, g, total, k, j) {
            return Some(j as u32);
        }
    }
    None
}

// Whether the entry of place k is there and has the usual name of place j.
fn has_name_of<A: Allocator>(set: &Set<'_, A>, g: usize, total: usize, k: usize, j: usize) -> bool
    requires total { total ≡ length (joined set.now) }
    requires listed { g < total }
    requires from { 1 ≤ j }
    requires to { j ≤ 10 }
    ensures { IsTrue result ↔ HasNameOf (names set.now) g k j }
{
    k < total - g && is_named(set, g + k, usual_name(j))
}
