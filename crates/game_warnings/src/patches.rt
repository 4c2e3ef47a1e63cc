//! Textures that lack a patch.

ghost use Rattle.std.specs.Prelude.{◌≡◌, ◌≢◌, ◌↔◌, ◌+◌, ◌*◌, ◌^◌, ◌<◌, ◌≤◌, ℕ, ℤ, pos, List, Some, length, IfNone, IfOk, IfSome, IsSomeAnd, IsTrue, slice_index_or};
ghost use Rattle.le_rec.specs.Name.{query_of};
ghost use Rattle.le_rec.specs.Number.{name_at};
ghost use Rattle.wad_dir.specs.Entries.{names};
ghost use Rattle.wad_dir.specs.Slice.{IsLump};
ghost use Rattle.game_warnings.specs.Found.{IsFound};
ghost use Rattle.game_warnings.specs.Graphics.{IsLacking};
ghost use Rattle.game_warnings.specs.Patches.{counted, listed_count, patch_count, patch_total, patches_of, texture_at, AreThere, AreTextureLumps, IsPatchThere, IsThere, IsLackingIn, LacksOne};
ghost use Rattle.game_warnings.specs.Winners.{AreWinners};

use crate::found::{found, found_or_empty};
use crate::winners::winner_of;
use le_rec::Name8;
use le_rec::number::{i16_at, i32_at};
use std::alloc::{AllocError, Allocator};
use std::collections::BTreeMap;
use wad_dir::Set;

// The bytes of a texture's record before its patches, and those of a patch in it.
const HEAD: usize = 22;

const PATCH: usize = 10;

// More patches than this aren't gone through.
const MOST_PATCHES: u64 = 16_777_216;

/// The name of the first texture of a set that lacks a patch. It takes a byte for each name of PNAMES.
pub fn lacking_texture<A: Allocator + Copy, B: Allocator>(
    alloc: A,
    set: &Set<'_, B>,
    winners: &BTreeMap<[u8; 8], usize, A>,
) -> Result<Option<[u8; 8]>, AllocError>
    requires { AreWinners (names set.now) winners.now }
    ensures { IfOk result (IsLacking set.now) }
{
    let Some(first) = found(set, b"TEXTURE1") else {
        return Ok(None);
    };
    let Some(pnames) = found(set, b"PNAMES") else {
        return Ok(None);
    };
    let second = found_or_empty(set, b"TEXTURE2");
    if patch_total(first) + patch_total(second) > MOST_PATCHES {
        return Ok(None);
    }
    let there = patches_there(alloc, set, winners, pnames)?;
    Ok(lacking_of_two(set, pnames, &there, first, second))
}

// The first texture of two lumps that lacks a patch.
fn lacking_of_two<B: Allocator>(
    set: &Set<'_, B>,
    pnames: &[u8],
    there: &[bool],
    first: &[u8],
    second: &[u8],
) -> Option<[u8; 8]>
    requires lumps { AreTextureLumps set.now first.now second.now pnames.now }
    requires there { AreThere set.now pnames.now there.now }
    ensures { IsLacking set.now result }
{
    if let Some(name) = lacking_in(set, pnames, there, first) {
        return Some(name);
    }
    lacking_in(set, pnames, there, second)
}

// How many numbers of `size` bytes a lump has behind its count.
fn listed_count(lump: &[u8], size: usize) -> usize
    requires { 0 < size }
    ensures count { result ≡ listed_count size lump.now }
    ensures inside { size * result + 4 ≤ length lump.now + 4 }
    ensures some { 0 < result → size * result + 4 ≤ length lump.now }
{
    if lump.len() < 4 {
        return 0;
    }
    let count = i32_at(lump, 0).max(0).cast_unsigned();
    ((lump.len() - 4) / size).min(count as usize)
}

// How many patches the record at a place has.
fn patch_count(lump: &[u8], at: usize) -> usize
    requires { at + 22 ≤ length lump.now }
    ensures count { result ≡ patch_count lump.now at }
    ensures few { result < 2 ^ 15 }
{
    usize::from(i16_at(lump, at + 20).max(0).cast_unsigned())
}

// Where the texture of a number stands, wholly inside its lump.
fn texture_at(lump: &[u8], k: usize) -> Option<usize>
    requires { 4 * k + 8 ≤ length lump.now }
    ensures is { result ≡ texture_at lump.now k }
    ensures inside { IfSome result (λ at. at + 22 + 10 * patch_count lump.now at ≤ length lump.now) }
{
    let offset = i32_at(lump, 4 * k + 4);
    if offset < 0 {
        return None;
    }
    let at = offset as usize;
    if at + HEAD > lump.len() {
        return None;
    }
    if at + HEAD + PATCH * patch_count(lump, at) > lump.len() {
        return None;
    }
    Some(at)
}

// How many patches the textures of a lump have in all.
fn patch_total(lump: &[u8]) -> u64
    requires { length lump.now < 2 ^ 31 }
    ensures total { result ≡ patch_total lump.now }
    ensures few { result < 2 ^ 45 }
{
    let mut total = 0;
    for k in 0..listed_count(lump, 4) {
        total += patches_of(lump, k);
    }
    total
}

fn patches_of(lump: &[u8], k: usize) -> u64
    requires { 4 * k + 8 ≤ length lump.now }
    ensures count { result ≡ patches_of lump.now k }
    ensures few { result < 2 ^ 15 }
{
    match texture_at(lump, k) {
        Some(at) => patch_count(lump, at) as u64,
        None => 0,
    }
}

// For each name of PNAMES whether its lump is found.
fn patches_there<A: Allocator + Copy, B: Allocator>(
    alloc: A,
    set: &Set<'_, B>,
    winners: &BTreeMap<[u8; 8], usize, A>,
    pnames: &[u8],
) -> Result<Vec<bool, A>, AllocError>
    requires { AreWinners (names set.now) winners.now }
    ensures { IfOk result (λ there. AreThere set.now pnames.now there.items) }
{
    let count = listed_count(pnames, 8);
    let mut there = Vec::with_capacity(alloc, count)?;
    for m in 0..count {
        there.push(is_patch_found(set, winners, pnames, m))?;
    }
    Ok(there)
}

// Whether the lump of the name of a number is found.
fn is_patch_found<A: Allocator, B: Allocator>(
    set: &Set<'_, B>,
    winners: &BTreeMap<[u8; 8], usize, A>,
    pnames: &[u8],
    m: usize,
) -> bool
    requires winners { AreWinners (names set.now) winners.now }
    requires inside { 4 + 8 * m + 8 ≤ length pnames.now }
    ensures { IsTrue result ↔ ((lump : List ℕ) × IsFound set.now (query_of (name_at pnames.now (4 + 8 * m))) lump) }
{
    is_found(set, winners, name_bytes(pnames, 4 + 8 * m))
}

// The eight bytes of a name at a place.
fn name_bytes(lump: &[u8], at: usize) -> &[u8]
    requires { at + 8 ≤ length lump.now }
    ensures { result.now ≡ name_at lump.now at }
{
    &lump[at..at + 8]
}

// Whether the lump of a name is found.
fn is_found<A: Allocator, B: Allocator>(
    set: &Set<'_, B>,
    winners: &BTreeMap<[u8; 8], usize, A>,
    name: &[u8],
) -> bool
    requires { AreWinners (names set.now) winners.now }
    ensures { IsTrue result ↔ ((lump : List ℕ) × IsFound set.now (query_of name.now) lump) }
{
    match winner_of(winners, &Name8::query(name)) {
        Some(g) => has_lump(set, g),
        None => false,
    }
}

// Whether the lump of an entry is inside its file.
fn has_lump<B: Allocator>(set: &Set<'_, B>, g: usize) -> bool
    ensures { IsTrue result ↔ ((lump : List ℕ) × IsLump set.now g lump) }
{
    match set.lump(g) {
        Ok(_lump) => true,
        Err(_fault) => false,
    }
}

// The name of the first texture of a lump that lacks a patch.
fn lacking_in<B: Allocator>(
    set: &Set<'_, B>,
    pnames: &[u8],
    there: &[bool],
    lump: &[u8],
) -> Option<[u8; 8]>
    requires { AreThere set.now pnames.now there.now }
    ensures { IsLackingIn set.now pnames.now lump.now result }
{
    for k in 0..listed_count(lump, 4) {
        if let Some(name) = lacking_at(set, pnames, there, lump, k) {
            return Some(name);
        }
    }
    None
}

// The name of the texture of a number, if it lacks a patch.
fn lacking_at<B: Allocator>(
    set: &Set<'_, B>,
    pnames: &[u8],
    there: &[bool],
    lump: &[u8],
    k: usize,
) -> Option<[u8; 8]>
    requires there { AreThere set.now pnames.now there.now }
    requires inside { 4 * k + 8 ≤ length lump.now }
    ensures some { IfSome result (λ bytes. IsSomeAnd (texture_at lump.now k)
        (λ at. LacksOne set.now pnames.now lump.now at × (bytes ≡ name_at lump.now at))) }
    ensures none { IfNone result (¬ IsSomeAnd (texture_at lump.now k) (LacksOne set.now pnames.now lump.now)) }
{
    let at = texture_at(lump, k)?;
    if !lacks_one(set, pnames, there, lump, at) {
        return None;
    }
    Some(name_at(lump, at))
}

fn name_at(lump: &[u8], at: usize) -> [u8; 8]
    requires { at + 8 ≤ length lump.now }
    ensures { result ≡ name_at lump.now at }
{
    let mut name = [0; 8];
    name.copy_from_slice(name_bytes(lump, at));
    name
}

// Whether the record at a place lacks a patch.
fn lacks_one<B: Allocator>(
    set: &Set<'_, B>,
    pnames: &[u8],
    there: &[bool],
    lump: &[u8],
    at: usize,
) -> bool
    requires there { AreThere set.now pnames.now there.now }
    requires inside { at + 22 + 10 * patch_count lump.now at ≤ length lump.now }
    ensures { IsTrue result ↔ LacksOne set.now pnames.now lump.now at }
{
    for j in 0..patch_count(lump, at) {
        let number = i16_at(lump, at + HEAD + PATCH * j + 4);
        if !is_there(set, pnames, there, number) {
            return true;
        }
    }
    false
}

// Whether the patch of a number is there.
fn is_there<B: Allocator>(set: &Set<'_, B>, pnames: &[u8], there: &[bool], number: i16) -> bool
    requires { AreThere set.now pnames.now there.now }
    ensures { IsTrue result ↔ IsPatchThere set.now pnames.now number }
{
    // Only the clauses speak of the set and its names.
    let (_set, _pnames) = (set, pnames);
    if number < 0 {
        return false;
    }
    let at = number as usize;
    at < there.len() && there[at]
}
