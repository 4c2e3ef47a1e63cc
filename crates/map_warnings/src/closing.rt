//! W1: sectors whose sides don't close.

ghost use Rattle.std.specs.Prelude.{◌≡◌, ◌≢◌, ◌↔◌, ◌+◌, ◌-◌, ◌/◌, ◌^◌, ◌<◌, ◌≤◌, ℕ, length, slice_index_or, [], IfOk, IfSome, IsTrue, OnOk, option_to_list};
ghost use Rattle.map_level.specs.Reading.{linedef_under, number_of};
ghost use Rattle.map_level.specs.SectorOf.{number_named};
ghost use Rattle.map_warnings.specs.Closing.{run_of, runs_of_linedef, runs_of};
ghost use Rattle.map_warnings.specs.RunNumbers.{AddsRuns, AreRunNumbers, IsShortRun, pair_bound, pair_number};
ghost use Rattle.map_warnings.specs.Warnings.{Tells, TellsBelow};
ghost use Rattle.map_warnings.specs.Holds.{HoldsOf};

use crate::balance::are_balanced;
use crate::records::{number_named, sidedef};
use crate::told::{Told, tell_where};
use crate::warning::Warning;
use le_rec::LineDef;
use level_codes::WarningCode;
use map_level::{Level, number};
use std::alloc::{AllocError, Allocator};

/// A side of a linedef, in the sector that it faces. It leaves one vertex and reaches another.
#[derive(Clone, Copy, Debug, PartialEq, Eq)]
pub struct SideRun {
    pub sector: u32,
    pub from: u32,
    pub to: u32,
}

/// Fewer numbers than this are sooner sorted than counted.
const FEWEST_COUNTED: usize = 128;

/// W1 of a level: the vertexes at which a sector's outline has a gap or an extra line, as not the same number of sides leave as
/// reach the vertex. It takes 24 bytes a side, and up to 40, and while it looks for a sector that isn't closed, four bytes a
/// sector and eight a vertex.
pub fn unclosed<A: Allocator + Copy>(
    alloc: A,
    level: &Level<'_>,
    most: usize,
) -> Result<Told<A>, AllocError>
    ensures told { IfOk result (λ told. Tells (HoldsOf level.now WarningCode.W1) told) }
    ensures most { IfOk result (λ told. told.most ≡ most) }
{
    let mut numbers = numbers_of(alloc, level)?;
    if are_closed(alloc, level, &numbers) {
        return Ok(Told::new(alloc, most));
    }
    numbers.sort_unstable();
    tell_unclosed(alloc, level, &numbers, most)
}

// If this is true, all sectors are closed, as in most levels, and the numbers needn't be sorted.
fn are_closed<A: Allocator + Copy>(alloc: A, level: &Level<'_>, numbers: &[u64]) -> bool
    requires { AddsRuns (runs_of level.now) [] numbers.now }
    ensures { IsTrue result → (w : Warning) → ¬ HoldsOf level.now WarningCode.W1 w }
{
    let sectors = level.sectors().len().min(65536);
    let vertexes = level.vertexes().len().min(65536);
    // Few numbers are sooner put in order than all sectors and vertexes are looked through.
    if numbers.len() < FEWEST_COUNTED.max((sectors + vertexes) / 2) {
        return false;
    }
    // If memory for it is refused, the numbers are sorted, too, as this takes none.
    let Ok(closed) = are_balanced(alloc, numbers, sectors, vertexes) else {
        return false;
    };
    closed
}

// Adds where sectors aren't closed, by the sorted numbers of the sides.
fn tell_unclosed<A: Allocator>(
    alloc: A,
    level: &Level<'_>,
    numbers: &[u64],
    most: usize,
) -> Result<Told<A>, AllocError>
    requires { AreRunNumbers level.now numbers.now }
    ensures told { IfOk result (λ told. Tells (HoldsOf level.now WarningCode.W1) told) }
    ensures most { IfOk result (λ told. told.most ≡ most) }
{
    let mut told = Told::new(alloc, most);
    for k in 0..numbers.len() {
        tell_from(&mut told, level, numbers, k)?;
    }
    Ok(told)
}

// Adds a sector that isn't closed at a vertex, if the k-th number is the first of this pair.
fn tell_from<A: Allocator>(
    told: &mut Told<A>,
    level: &Level<'_>,
    numbers: &[u64],
    k: usize,
) -> Result<(), AllocError>
    requires numbers { AreRunNumbers level.now numbers.now }
    requires within { k < length numbers.now }
    requires below { TellsBelow (HoldsOf level.now WarningCode.W1) (pair_bound numbers.now k) told.old }
    ensures told { OnOk result
        (TellsBelow (HoldsOf level.now WarningCode.W1) (pair_bound numbers.now (k + 1)) told.new) }
    ensures most { OnOk result (told.new.most ≡ told.old.most) }
{
    let pair = numbers[k] / 2;
    if goes_on(numbers, k, pair) {
        return Ok(());
    }
    let middle = run_end(numbers, k, pair * 2);
    let end = run_end(numbers, middle, pair * 2 + 1);
    let warning = Warning::Unclosed {
        sector: (pair / 65536) as u32,
        vertex: (pair % 65536) as u32,
    };
    tell_where(
        told,
        level,
        WarningCode::W1,
        warning,
        end - middle != middle - k,
    )
}

// Whether the number before the k-th is of the pair, too.
fn goes_on(numbers: &[u64], k: usize, pair: u64) -> bool
    requires { k < length numbers.now }
    ensures { IsTrue result ↔ ((0 < k) × (slice_index_or numbers.now (k - 1) 0 / 2 ≡ pair)) }
{
    k > 0 && numbers[k - 1] / 2 == pair
}

// The first place with another number, from a given one on.
fn run_end(numbers: &[u64], from: usize, number: u64) -> usize
    requires { from ≤ length numbers.now }
    ensures after { from ≤ result }
    ensures within { result ≤ length numbers.now }
    ensures same { (j : ℕ) → from ≤ j → j < result → slice_index_or numbers.now j 0 ≡ number }
    ensures other { result < length numbers.now → slice_index_or numbers.now result 0 ≢ number }
{
    for j in from..numbers.len() {
        if numbers[j] != number {
            return j;
        }
    }
    numbers.len()
}

// The numbers of a level's sides.
fn numbers_of<A: Allocator>(alloc: A, level: &Level<'_>) -> Result<Vec<u64, A>, AllocError>
    ensures { IfOk result (λ numbers. AddsRuns (runs_of level.now) [] numbers.items) }
{
    let mut numbers = Vec::new(alloc);
    let linedefs = level.linedefs();
    'linedefs: for i in 0..linedefs.len() {
        push_linedef(&mut numbers, level, &linedefs.at(i))?;
    }
    Ok(numbers)
}

// Adds the numbers of a linedef's sides.
fn push_linedef<A: Allocator>(
    numbers: &mut Vec<u64, A>,
    level: &Level<'_>,
    linedef: &LineDef,
) -> Result<(), AllocError>
    ensures { OnOk result (AddsRuns (runs_of_linedef level.now (linedef_under level.now.reading linedef.now))
        numbers.old.items numbers.new.items) }
{
    let front = run_of(level, linedef.side0, linedef.v1, linedef.v2);
    push_run(numbers, front)?;
    let back = run_of(level, linedef.side1, linedef.v2, linedef.v1);
    push_run(numbers, back)?;
    Ok(())
}

// Adds the numbers of a side, where it is there.
fn push_run<A: Allocator>(numbers: &mut Vec<u64, A>, run: Option<SideRun>) -> Result<(), AllocError>
    requires { IfSome run IsShortRun }
    ensures { OnOk result (AddsRuns (option_to_list run) numbers.old.items numbers.new.items) }
{
    let Some(run) = run else {
        return Ok(());
    };
    numbers.push(pair_number(run.sector, run.to) * 2)?;
    numbers.push(pair_number(run.sector, run.from) * 2 + 1)?;
    Ok(())
}

// A sector and a vertex as a number.
fn pair_number(sector: u32, vertex: u32) -> u64
    requires sector { sector < 65536 }
    requires vertex { vertex < 65536 }
    ensures number { result ≡ pair_number sector vertex }
    ensures below { result < 2 ^ 32 }
{
    u64::from(sector) * 65536 + u64::from(vertex)
}

// The side that three words describe: its sidedef, the vertex that it leaves and the one that it reaches.
fn run_of(level: &Level<'_>, side: i16, start: i16, end: i16) -> Option<SideRun>
    ensures run { let index = number_of level.now.reading in result ≡ run_of level.now (index side) (index start) (index end) }
    ensures short { IfSome result IsShortRun }
{
    let sidedef = sidedef(level, side)?;
    let sector = sector_named(level, sidedef.sector)?;
    let from = vertex_named(level, start)?;
    let to = vertex_named(level, end)?;
    Some(SideRun { sector, from, to })
}

// The number of the sector that a word names.
fn sector_named(level: &Level<'_>, word: i16) -> Option<u32>
    ensures number { result ≡ number_named (length level.now.sectors.records) (number_of level.now.reading word) }
    ensures short { IfSome result (λ s. s < 65536) }
{
    number_named(number(word, level.reading()), level.sectors().len())
}

// The number of the vertex that a word names.
fn vertex_named(level: &Level<'_>, word: i16) -> Option<u32>
    ensures number { result ≡ number_named (length level.now.vertexes.records) (number_of level.now.reading word) }
    ensures short { IfSome result (λ v. v < 65536) }
{
    number_named(number(word, level.reading()), level.vertexes().len())
}
