//! W7 and W8: where players start.

ghost use Rattle.std.specs.Prelude.{◌≡◌, ◌↔◌, ◌<◌, ℕ, pos, count_by, take, IfNone, IfOk, IfSome, IsTrue};
ghost use Rattle.std.specs.Ordering.{int_eq};
ghost use Rattle.map_warnings.specs.Starts.{deathmatch_starts, AreFewStarts, HasNone, IsOfKind, IsWithoutStart};
ghost use Rattle.map_warnings.specs.Warnings.{Tells};
ghost use Rattle.map_warnings.specs.Holds.{HoldsOf};

use crate::told::{Told, tell_one};
use crate::warning::Warning;
use le_rec::Thing;
use level_codes::WarningCode;
use map_level::Level;
use std::alloc::{AllocError, Allocator};

// The kind of a thing that is a deathmatch start.
const DEATHMATCH: i16 = 11;

// How many deathmatch starts the game wants.
const WANTED: u32 = 4;

/// W7 of a level: the first of players 2 to 4 that has no start.
pub fn missing_start<A: Allocator>(
    alloc: A,
    level: &Level<'_>,
    most: usize,
) -> Result<Told<A>, AllocError>
    ensures told { IfOk result (λ told. Tells (HoldsOf level.now WarningCode.W7) told) }
    ensures most { IfOk result (λ told. told.most ≡ most) }
{
    match player_without_start(level) {
        Some(player) => tell_one(
            alloc,
            level,
            WarningCode::W7,
            most,
            Some(Warning::NoStart { player }),
        ),
        None => tell_one(alloc, level, WarningCode::W7, most, None),
    }
}

/// W8 of a level: how many deathmatch starts there are, if they are fewer than four.
pub fn few_starts<A: Allocator>(
    alloc: A,
    level: &Level<'_>,
    most: usize,
) -> Result<Told<A>, AllocError>
    ensures told { IfOk result (λ told. Tells (HoldsOf level.now WarningCode.W8) told) }
    ensures most { IfOk result (λ told. told.most ≡ most) }
{
    let starts = deathmatch_starts(level);
    if starts >= WANTED {
        return tell_one(alloc, level, WarningCode::W8, most, None);
    }
    let warning = Warning::FewStarts { starts };
    tell_one(alloc, level, WarningCode::W8, most, Some(warning))
}

// The first player from 2 to 4 without a start.
fn player_without_start(level: &Level<'_>) -> Option<u32>
    ensures some { IfSome result (IsWithoutStart level.now) }
    ensures none { IfNone result ((player : ℕ) → ¬ IsWithoutStart level.now player) }
{
    if !has_some(level, 2) {
        return Some(2);
    }
    if !has_some(level, 3) {
        return Some(3);
    }
    if !has_some(level, 4) {
        return Some(4);
    }
    None
}

// Whether some thing is of a kind.
fn has_some(level: &Level<'_>, kind: i16) -> bool
    ensures { IsTrue result ↔ ((k : ℕ) × IsOfKind level.now kind k) }
{
    for k in 0..level.things().len() {
        if is_of_kind(level, kind, k) {
            return true;
        }
    }
    false
}

fn is_of_kind(level: &Level<'_>, kind: i16, k: usize) -> bool
    ensures { IsTrue result ↔ IsOfKind level.now kind k }
{
    match level.things().get(k) {
        Some(thing) => thing.kind == kind,
        None => false,
    }
}

// How many things are deathmatch starts.
fn deathmatch_starts(level: &Level<'_>) -> u32
    ensures { result ≡ deathmatch_starts level.now }
{
    let things = level.things();
    let mut count = 0;
    for k in 0..things.len() {
        if is_deathmatch(&things.at(k)) {
            count += 1;
        }
    }
    count
}

fn is_deathmatch(thing: &Thing) -> bool
    ensures { result ≡ int_eq thing.now.kind (pos 11) }
{
    thing.kind == DEATHMATCH
}
