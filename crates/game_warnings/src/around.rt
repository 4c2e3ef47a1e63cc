//! What lies around each sector, from one pass over the linedefs.

ghost use Rattle.std.specs.Prelude.{◌≡◌, ◌≢◌, ◌+◌, ◌^◌, ◌<◌, ◌≤◌, ◌↔◌, ℕ, Some, IfOk, IfSome, IsTrue, length, slice_index_or};
ghost use Rattle.std.specs.List.{slice_get};
ghost use Rattle.map_level.specs.Links.{sectors_of};
ghost use Rattle.game_warnings.specs.Around.{AreAround, AreFirstLines, IsAround};
ghost use Rattle.game_warnings.specs.Neighbours.{higher_count, leads_up, line_count, lower_by, lowest_floor};
ghost use Rattle.game_warnings.specs.Sides.{back_alone, is_of, sides_in};
ghost use Rattle.game_warnings.specs.declared.around.Around.{Around};

use crate::count::counted;
use crate::sides::{Sides, floor_at, is_sector, sides_at};
use le_rec::Sector;
use map_level::Level;
use std::alloc::{AllocError, Allocator};

/// The first linedef of a sector, what is behind it, and the first one that has something else behind it.
#[derive(Clone, Copy)]
pub struct FirstLines {
    pub first: Option<u32>,
    pub behind: Option<u32>,
    pub other: Option<u32>,
}

/// What lies around a sector.
#[derive(Clone, Copy)]
pub struct Around {
    /// How many linedefs it has.
    pub linedefs: u32,
    /// How many of them lead up.
    pub higher: u32,
    /// The least floor of the sector and of what is across its linedefs.
    pub lowest: i16,
    pub lines: FirstLines,
}

/// What lies around each sector of a level.
pub fn around_of<A: Allocator>(alloc: A, level: &Level<'_>) -> Result<Vec<Around, A>, AllocError>
    ensures { IfOk result (λ around. AreAround level.now (length (sides_in level.now)) around.items) }
{
    let mut around = bare(alloc, level)?;
    add_linedefs(level, &mut around);
    Ok(around)
}

// The same before any linedef.
fn bare<A: Allocator>(alloc: A, level: &Level<'_>) -> Result<Vec<Around, A>, AllocError>
    ensures { IfOk result (λ around. AreAround level.now 0 around.items) }
{
    let sectors = level.sectors();
    let mut around = Vec::with_capacity(alloc, sectors.len())?;
    for s in 0..sectors.len() {
        around.push(nothing_around(level, &sectors.at(s), s))?;
    }
    Ok(around)
}

fn nothing_around(level: &Level<'_>, sector: &Sector, s: usize) -> Around
    requires { slice_get (sectors_of level.now) s ≡ Some sector.now }
    ensures { IsAround level.now s 0 result }
{
    // Only the clauses speak of the level.
    let (_level, _s) = (level, s);
    Around {
        linedefs: 0,
        higher: 0,
        lowest: sector.floor,
        lines: FirstLines {
            first: None,
            behind: None,
            other: None,
        },
    }
}

fn add_linedefs(level: &Level<'_>, around: &mut [Around])
    requires { AreAround level.now 0 around.old }
    ensures { AreAround level.now (length (sides_in level.now)) around.new }
{
    for i in 0..level.linedefs().len() {
        add_linedef(level, around, i as u32);
    }
}

// Adds a linedef to what lies around its sectors, each once.
fn add_linedef(level: &Level<'_>, around: &mut [Around], i: u32)
    requires there { i < length level.now.linedefs.records }
    requires before { AreAround level.now i around.old }
    ensures { AreAround level.now (i + 1) around.new }
{
    let sides = sides_at(level, i);
    add_front(level, around, sides, i);
    add_back(level, around, sides, i);
}

fn add_front(level: &Level<'_>, around: &mut [Around], sides: Sides, i: u32)
    requires long { length around.old ≡ length (sectors_of level.now) }
    requires front { IfSome sides.front (λ s. s < length (sectors_of level.now)) }
    requires few { i < 2 ^ 31 }
    requires at { slice_get (sides_in level.now) i ≡ Some sides }
    requires before { (s : ℕ) (d : Around) → sides.front ≡ Some s → IsAround level.now s i (slice_index_or around.old s d) }
    ensures here { (s : ℕ) (d : Around) → sides.front ≡ Some s → IsAround level.now s (i + 1) (slice_index_or around.new s d) }
    ensures others { (s : ℕ) (d : Around) → (¬ (sides.front ≡ Some s)) → slice_index_or around.new s d ≡ slice_index_or around.old s d }
{
    let Some(front) = sides.front else {
        return;
    };
    add_to(level, around, sides, front, i);
}

fn add_back(level: &Level<'_>, around: &mut [Around], sides: Sides, i: u32)
    requires long { length around.old ≡ length (sectors_of level.now) }
    requires back { IfSome sides.back (λ s. s < length (sectors_of level.now)) }
    requires few { i < 2 ^ 31 }
    requires at { slice_get (sides_in level.now) i ≡ Some sides }
    requires before { (s : ℕ) (d : Around) → back_alone sides ≡ Some s → IsAround level.now s i (slice_index_or around.old s d) }
    ensures here { (s : ℕ) (d : Around) → back_alone sides ≡ Some s → IsAround level.now s (i + 1) (slice_index_or around.new s d) }
    ensures others { (s : ℕ) (d : Around) → (¬ (back_alone sides ≡ Some s)) → slice_index_or around.new s d ≡ slice_index_or around.old s d }
{
    let Some(back) = back_alone(sides) else {
        return;
    };
    add_to(level, around, sides, back, i);
}

/// The sector at the back, where it isn't the one in front.
pub fn back_alone(sides: Sides) -> Option<u32>
    ensures { result ≡ back_alone sides }
{
    match sides.back {
        Some(back) if !is_sector(sides.front, back) => Some(back),
        _ => None,
    }
}

// Adds a linedef to what lies around a sector of it.
fn add_to(level: &Level<'_>, around: &mut [Around], sides: Sides, s: u32, i: u32)
    requires within { s < length around.old }
    requires few { i < 2 ^ 31 }
    requires at { slice_get (sides_in level.now) i ≡ Some sides }
    requires of { IsTrue (is_of s sides) }
    requires before { (d : Around) → IsAround level.now s i (slice_index_or around.old s d) }
    ensures here { (d : Around) → IsAround level.now s (i + 1) (slice_index_or around.new s d) }
    ensures others { (t : ℕ) (d : Around) → t ≢ s → slice_index_or around.new t d ≡ slice_index_or around.old t d }
{
    let at = s as usize;
    around[at] = grown(level, around[at], sides, s, i);
}

// What lies around a sector with one more linedef of the sector.
fn grown(level: &Level<'_>, around: Around, sides: Sides, s: u32, i: u32) -> Around
    requires few { i < 2 ^ 31 }
    requires at { slice_get (sides_in level.now) i ≡ Some sides }
    requires of { IsTrue (is_of s sides) }
    requires before { IsAround level.now s i around }
    ensures { IsAround level.now s (i + 1) result }
{
    Around {
        linedefs: around.linedefs + 1,
        higher: counted(around.higher, leads_up(level, sides, s)),
        lowest: lowered(level, around.lowest, sides, s),
        lines: lines_with(level, around.lines, sides, s, i),
    }
}

fn leads_up(level: &Level<'_>, sides: Sides, s: u32) -> bool
    requires { IsTrue (is_of s sides) }
    ensures { result ≡ leads_up level.now s sides }
{
    if !sides.is_two_sided {
        return false;
    }
    match sides.across(s) {
        Some(other) => floor_at(level, s) < floor_at(level, other),
        None => false,
    }
}

fn lowered(level: &Level<'_>, height: i16, sides: Sides, s: u32) -> i16
    requires { IsTrue (is_of s sides) }
    ensures { result ≡ lower_by level.now s height sides }
{
    if !sides.is_two_sided {
        return height;
    }
    match sides.across(s) {
        Some(other) => height.min(floor_at(level, other)),
        None => height,
    }
}

fn lines_with(level: &Level<'_>, lines: FirstLines, sides: Sides, s: u32, i: u32) -> FirstLines
    requires at { slice_get (sides_in level.now) i ≡ Some sides }
    requires of { IsTrue (is_of s sides) }
    requires before { AreFirstLines level.now s i lines }
    ensures { AreFirstLines level.now s (i + 1) result }
{
    // Only the clauses speak of the level and the sector.
    let (_level, _s) = (level, s);
    if lines.first.is_none() {
        return FirstLines {
            first: Some(i),
            behind: sides.back,
            other: None,
        };
    }
    if lines.other.is_some() || sides.back == lines.behind {
        return lines;
    }
    FirstLines {
        first: lines.first,
        behind: lines.behind,
        other: Some(i),
    }
}

/// The least floor of a sector and of what is across its linedefs.
pub fn lowest_floor(level: &Level<'_>, around: &[Around], s: u32) -> i16
    requires around { AreAround level.now (length (sides_in level.now)) around.now }
    requires within { s < length (sectors_of level.now) }
    ensures { result ≡ lowest_floor level.now s }
{
    around_at(level, around, s).lowest
}

/// How many linedefs a sector has.
pub fn line_count(level: &Level<'_>, around: &[Around], s: u32) -> u32
    requires around { AreAround level.now (length (sides_in level.now)) around.now }
    requires within { s < length (sectors_of level.now) }
    ensures { result ≡ line_count level.now s }
{
    around_at(level, around, s).linedefs
}

/// How many linedefs lead up from it.
pub fn higher_count(level: &Level<'_>, around: &[Around], s: u32) -> u32
    requires around { AreAround level.now (length (sides_in level.now)) around.now }
    requires within { s < length (sectors_of level.now) }
    ensures { result ≡ higher_count level.now s }
{
    around_at(level, around, s).higher
}

/// What lies around a sector, by all linedefs.
pub fn around_at(level: &Level<'_>, around: &[Around], s: u32) -> Around
    requires around { AreAround level.now (length (sides_in level.now)) around.now }
    requires within { s < length (sectors_of level.now) }
    ensures { IsAround level.now s (length (sides_in level.now)) result }
{
    // Only the clauses speak of the level.
    let _level = level;
    around[s as usize]
}
