//! W6: linedefs that lie on earlier ones.

ghost use Rattle.std.specs.Prelude.{◌≡◌, ◌↔◌, ◌+◌, ◌++◌, ◌<◌, ◌≤◌, ◌^◌, Some, IfOk, IfSome, OnOk, IsSomeAnd, IsTrue};
ghost use Rattle.std.specs.List.Sorted.{IsNonDecreasing};
ghost use Rattle.map_level.specs.Reading.{linedef_under};
ghost use Rattle.map_warnings.specs.Twin.{ends_of, ends_of_linedef};
ghost use Rattle.map_warnings.specs.EndsKey.{AreApart, AreFirsts, AreShortEnds, ends_key, IsFirstOf, IsShort, key_at};
ghost use Rattle.map_warnings.specs.EndsKey.{keys_of, keys_of_linedef, place_number};
ghost use Rattle.map_warnings.specs.Warnings.{Tells, TellsBelow};
ghost use Rattle.map_warnings.specs.Holds.{HoldsOf};

use crate::apart::are_surely_apart;
use crate::told::{Told, tell_where};
use crate::warning::Warning;
use le_rec::{LineDef, Vertex};
use level_codes::WarningCode;
use map_level::Level;
use map_level::links::{linedef_at, vertex};
use std::alloc::{AllocError, Allocator};
use std::collections::BTreeMap;

/// The two vertexes of a linedef.
#[derive(Clone, Copy, Debug, PartialEq, Eq)]
pub struct Ends {
    pub from: Vertex,
    pub to: Vertex,
}

/// W6 of a level: its linedefs with both ends at the places of an earlier one's. It takes twelve bytes a linedef and 16 KiB. If
/// two linedefs have the same places, it takes a map of places besides.
pub fn twins<A: Allocator + Copy>(
    alloc: A,
    level: &Level<'_>,
    most: usize,
) -> Result<Told<A>, AllocError>
    ensures told { IfOk result (λ told. Tells (HoldsOf level.now WarningCode.W6) told) }
    ensures most { IfOk result (λ told. told.most ≡ most) }
{
    // Most levels have none, and numbers show this faster than a map does.
    let own = have_own_keys(alloc, level)?;
    if own {
        return Ok(Told::new(alloc, most));
    }
    tell_twins(alloc, level, most)
}

// Whether all linedefs' ends have different numbers.
fn have_own_keys<A: Allocator + Copy>(alloc: A, level: &Level<'_>) -> Result<bool, AllocError>
    ensures { IfOk result (λ own. IsTrue own ↔ AreApart (keys_of level.now)) }
{
    let mut keys = keys_of(alloc, level)?;
    // If memory for it is refused, the keys are sorted, too, as this takes none.
    if let Ok(true) = are_surely_apart(alloc, &keys) {
        return Ok(true);
    }
    keys.sort_unstable();
    Ok(are_apart(&keys))
}

// Whether all of some sorted numbers differ.
fn are_apart(numbers: &[u64]) -> bool
    requires { IsNonDecreasing numbers.now }
    ensures { IsTrue result ↔ AreApart numbers.now }
{
    for k in 1..numbers.len() {
        if numbers[k - 1] == numbers[k] {
            return false;
        }
    }
    true
}

// The numbers of the ends of a level's linedefs.
fn keys_of<A: Allocator>(alloc: A, level: &Level<'_>) -> Result<Vec<u64, A>, AllocError>
    ensures { IfOk result (λ keys. keys.items ≡ keys_of level.now) }
{
    let linedefs = level.linedefs();
    let mut keys = Vec::with_capacity(alloc, linedefs.len())?;
    'linedefs: for i in 0..linedefs.len() {
        push_key(&mut keys, level, &linedefs.at(i))?;
    }
    Ok(keys)
}

// Adds the number of a linedef's ends, where they are there.
fn push_key<A: Allocator>(
    keys: &mut Vec<u64, A>,
    level: &Level<'_>,
    linedef: &LineDef,
) -> Result<(), AllocError>
    ensures { OnOk result (keys.new.items
        ≡ keys.old.items ++ keys_of_linedef level.now (linedef_under level.now.reading linedef.now)) }
{
    let Some(ends) = ends_of(level, linedef) else {
        return Ok(());
    };
    keys.push(ends_key(&ends))?;
    Ok(())
}

// Adds the linedefs that lie on earlier ones, by a map from places to the first linedef at them.
fn tell_twins<A: Allocator + Copy>(
    alloc: A,
    level: &Level<'_>,
    most: usize,
) -> Result<Told<A>, AllocError>
    ensures told { IfOk result (λ told. Tells (HoldsOf level.now WarningCode.W6) told) }
    ensures most { IfOk result (λ told. told.most ≡ most) }
{
    let mut told = Told::new(alloc, most);
    let mut firsts = BTreeMap::new(alloc);
    for i in 0..level.linedefs().len() {
        tell_twin(&mut told, &mut firsts, level, i as u32)?;
    }
    Ok(told)
}

// Adds a linedef that lies on an earlier one. The map keeps it if it is the first at its places.
fn tell_twin<A: Allocator + Copy>(
    told: &mut Told<A>,
    firsts: &mut BTreeMap<u64, u32, A>,
    level: &Level<'_>,
    i: u32,
) -> Result<(), AllocError>
    requires below { TellsBelow (HoldsOf level.now WarningCode.W6) i told.old }
    requires firsts { AreFirsts level.now i firsts.old }
    ensures told { OnOk result (TellsBelow (HoldsOf level.now WarningCode.W6) (i + 1) told.new) }
    ensures most { OnOk result (told.new.most ≡ told.old.most) }
    ensures firsts { OnOk result (AreFirsts level.now (i + 1) firsts.new) }
{
    let Some(ends) = ends_at(level, i) else {
        return Ok(());
    };
    let earlier = first_of(firsts, level, ends_key(&ends), i)?;
    let twin = Warning::Twin {
        linedef: i,
        earlier,
    };
    tell_where(told, level, WarningCode::W6, twin, earlier < i)
}

// The first linedef, up to a given one, whose ends have this number. The map keeps it.
fn first_of<A: Allocator + Copy>(
    firsts: &mut BTreeMap<u64, u32, A>,
    level: &Level<'_>,
    key: u64,
    i: u32,
) -> Result<u32, AllocError>
    requires firsts { AreFirsts level.now i firsts.old }
    requires key { key_at level.now i ≡ Some key }
    requires short { IsSomeAnd (ends_of level.now i) AreShortEnds }
    ensures first { IfOk result (IsFirstOf level.now key) }
    ensures up_to { IfOk result (λ e. e ≤ i) }
    ensures firsts { OnOk result (AreFirsts level.now (i + 1) firsts.new) }
{
    // Only the clauses speak of the level.
    let _level = level;
    match firsts.insert(key, i)? {
        Some(first) => {
            // The first one is put back.
            firsts.insert(key, first)?;
            Ok(first)
        }
        None => Ok(i),
    }
}

// The ends of the linedef of a number.
fn ends_at(level: &Level<'_>, i: u32) -> Option<Ends>
    ensures ends { result ≡ ends_of level.now i }
    ensures short { IfSome result AreShortEnds }
{
    let linedef = linedef_at(level, i as usize)?;
    ends_of(level, &linedef)
}

fn ends_of(level: &Level<'_>, linedef: &LineDef) -> Option<Ends>
    ensures ends { result ≡ ends_of_linedef level.now (linedef_under level.now.reading linedef.now) }
    ensures short { IfSome result AreShortEnds }
{
    let from = vertex(level, linedef.v1)?;
    let to = vertex(level, linedef.v2)?;
    Some(Ends { from, to })
}

// A number for two places, in either order.
fn ends_key(ends: &Ends) -> u64
    ensures { result ≡ ends_key ends.now }
{
    let from = place_number(&ends.from);
    let to = place_number(&ends.to);
    from.min(to) * (1 << 32) + from.max(to)
}

fn place_number(vertex: &Vertex) -> u64
    ensures number { result ≡ place_number vertex.now }
    ensures below { result < 2 ^ 32 }
{
    u64::from(vertex.x.cast_unsigned()) * 65536 + u64::from(vertex.y.cast_unsigned())
}
