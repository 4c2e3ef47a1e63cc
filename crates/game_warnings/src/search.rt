//! The search of a sector for a neighbour to change after.

ghost use Rattle.std.specs.Prelude.{◌≡◌, ◌≢◌, ◌+◌, ◌^◌, ◌<◌, ℕ, Some, IfOk, IfSome, IsTrue, length, slice_index_or};
ghost use Rattle.std.specs.List.{slice_get};
ghost use Rattle.map_level.specs.Links.{sectors_of};
ghost use Rattle.game_warnings.specs.Around.{AreAround, AreSearches};
ghost use Rattle.game_warnings.specs.Change.{begun, look, look_across};
ghost use Rattle.game_warnings.specs.Sides.{across, back_alone, is_of, sides_in};
ghost use Rattle.game_warnings.specs.declared.search.Search.{Search};

use crate::around::{Around, back_alone, line_count, lowest_floor};
use crate::sides::{Sides, floor_at, sides_at};
use map_level::Level;
use std::alloc::{AllocError, Allocator};

/// How far a search is.
#[derive(Clone, Copy)]
pub enum Search {
    /// It comes to the sector's linedef of a number, and goes on up to so many.
    Going { linedef: u32, count: u32 },
    /// It has found a neighbour.
    Found,
    /// It has ended without one.
    Lost,
}

/// The searches of all sectors, each at its end.
pub fn searches_of<A: Allocator>(
    alloc: A,
    level: &Level<'_>,
    around: &[Around],
) -> Result<Vec<Search, A>, AllocError>
    requires { AreAround level.now (length (sides_in level.now)) around.now }
    ensures { IfOk result (λ searches. AreSearches level.now (length (sides_in level.now)) searches.items) }
{
    let mut searches = begun(alloc, level, around)?;
    look_on_all(level, around, &mut searches);
    Ok(searches)
}

// The same before any linedef.
fn begun<A: Allocator>(
    alloc: A,
    level: &Level<'_>,
    around: &[Around],
) -> Result<Vec<Search, A>, AllocError>
    requires { AreAround level.now (length (sides_in level.now)) around.now }
    ensures { IfOk result (λ searches. AreSearches level.now 0 searches.items) }
{
    let sectors = level.sectors().len();
    let mut searches = Vec::with_capacity(alloc, sectors)?;
    for s in 0..sectors {
        searches.push(Search::Going {
            linedef: 0,
            count: line_count(level, around, s as u32),
        })?;
    }
    Ok(searches)
}

fn look_on_all(level: &Level<'_>, around: &[Around], searches: &mut [Search])
    requires around { AreAround level.now (length (sides_in level.now)) around.now }
    requires before { AreSearches level.now 0 searches.old }
    ensures { AreSearches level.now (length (sides_in level.now)) searches.new }
{
    for i in 0..level.linedefs().len() {
        look_on(level, around, searches, i as u32);
    }
}

// Takes the searches of a linedef's sectors on to it.
fn look_on(level: &Level<'_>, around: &[Around], searches: &mut [Search], i: u32)
    requires there { i < length level.now.linedefs.records }
    requires around { AreAround level.now (length (sides_in level.now)) around.now }
    requires before { AreSearches level.now i searches.old }
    ensures { AreSearches level.now (i + 1) searches.new }
{
    let sides = sides_at(level, i);
    look_in_front(level, around, searches, sides);
    look_at_back(level, around, searches, sides);
}

fn look_in_front(level: &Level<'_>, around: &[Around], searches: &mut [Search], sides: Sides)
    requires around { AreAround level.now (length (sides_in level.now)) around.now }
    requires long { length searches.old ≡ length (sectors_of level.now) }
    requires front { IfSome sides.front (λ s. s < length (sectors_of level.now)) }
    requires back { IfSome sides.back (λ s. s < length (sectors_of level.now)) }
    ensures here { (s : ℕ) (d : Search) → sides.front ≡ Some s
        → slice_index_or searches.new s d ≡ look level.now s (slice_index_or searches.old s d) sides }
    ensures others { (s : ℕ) (d : Search) → (¬ (sides.front ≡ Some s)) → slice_index_or searches.new s d ≡ slice_index_or searches.old s d }
{
    let Some(front) = sides.front else {
        return;
    };
    look_from(level, around, searches, sides, front);
}

fn look_at_back(level: &Level<'_>, around: &[Around], searches: &mut [Search], sides: Sides)
    requires around { AreAround level.now (length (sides_in level.now)) around.now }
    requires long { length searches.old ≡ length (sectors_of level.now) }
    requires front { IfSome sides.front (λ s. s < length (sectors_of level.now)) }
    requires back { IfSome sides.back (λ s. s < length (sectors_of level.now)) }
    ensures here { (s : ℕ) (d : Search) → back_alone sides ≡ Some s
        → slice_index_or searches.new s d ≡ look level.now s (slice_index_or searches.old s d) sides }
    ensures others { (s : ℕ) (d : Search) → (¬ (back_alone sides ≡ Some s)) → slice_index_or searches.new s d ≡ slice_index_or searches.old s d }
{
    let Some(back) = back_alone(sides) else {
        return;
    };
    look_from(level, around, searches, sides, back);
}

// Takes the search of one of them on.
fn look_from(level: &Level<'_>, around: &[Around], searches: &mut [Search], sides: Sides, s: u32)
    requires around { AreAround level.now (length (sides_in level.now)) around.now }
    requires within { s < length searches.old }
    requires sectors { s < length (sectors_of level.now) }
    requires front { IfSome sides.front (λ t. t < length (sectors_of level.now)) }
    requires back { IfSome sides.back (λ t. t < length (sectors_of level.now)) }
    requires of { IsTrue (is_of s sides) }
    ensures here { (d : Search) → slice_index_or searches.new s d ≡ look level.now s (slice_index_or searches.old s d) sides }
    ensures others { (t : ℕ) (d : Search) → t ≢ s → slice_index_or searches.new t d ≡ slice_index_or searches.old t d }
{
    let at = s as usize;
    searches[at] = looked(level, around, searches[at], sides, s);
}

fn looked(level: &Level<'_>, around: &[Around], search: Search, sides: Sides, s: u32) -> Search
    requires around { AreAround level.now (length (sides_in level.now)) around.now }
    requires sectors { s < length (sectors_of level.now) }
    requires front { IfSome sides.front (λ t. t < length (sectors_of level.now)) }
    requires back { IfSome sides.back (λ t. t < length (sectors_of level.now)) }
    requires of { IsTrue (is_of s sides) }
    ensures { result ≡ look level.now s search sides }
{
    let Search::Going { linedef, count } = search else {
        return search;
    };
    if linedef >= count {
        return Search::Lost;
    }
    if !sides.is_two_sided {
        return Search::Going {
            linedef: linedef + 1,
            count,
        };
    }
    looked_across(level, around, sides, s, linedef)
}

// The same at a linedef with two sides.
fn looked_across(level: &Level<'_>, around: &[Around], sides: Sides, s: u32, linedef: u32) -> Search
    requires around { AreAround level.now (length (sides_in level.now)) around.now }
    requires sectors { s < length (sectors_of level.now) }
    requires front { IfSome sides.front (λ t. t < length (sectors_of level.now)) }
    requires back { IfSome sides.back (λ t. t < length (sectors_of level.now)) }
    requires few { linedef + 1 < 2 ^ 32 }
    ensures { result ≡ look_across level.now s linedef (across s sides) }
{
    let Some(other) = sides.across(s) else {
        return Search::Lost;
    };
    if floor_at(level, other) == lowest_floor(level, around, s) {
        return Search::Found;
    }
    Search::Going {
        linedef: linedef + 1,
        count: line_count(level, around, other),
    }
}
