//! Whether each vertex of each sector has as many sides that leave it as reach it, found in linear time, without sorting the
//! sides.

ghost use Rattle.std.specs.Prelude.{◌≡◌, ◌+◌, ◌*◌, ◌%◌, ◌^◌, ◌<◌, ◌≤◌, ◌↔◌, ℕ, All, IfOk, IsTrue, length, slice_index_or};
ghost use Rattle.map_warnings.specs.KeyLinks.{AreLinks, of_key};
ghost use Rattle.map_warnings.specs.Balance.{AreBalanced, CountEnds, HasBalance, end_in, of_sectors, sector_in, square_in, squares_in};

use crate::sector_links::{SectorLinks, end_in, links_of, sector_in};
use std::alloc::{AllocError, Allocator};

/// More numbers than this, those of 65,536 sides, are sooner sorted: counting them goes all over memory.
const MOST: usize = 2 * 65536;

/// Whether the numbers of sides are balanced; `sectors` and `vertexes` are above all of theirs. It may return false for balanced
/// ones, too, if they are too many to be counted.
pub fn are_balanced<A: Allocator + Copy>(
    alloc: A,
    numbers: &[u64],
    sectors: usize,
    vertexes: usize,
) -> Result<bool, AllocError>
    requires sectors { All (λ n. sector_in n < sectors) numbers.now }
    requires ends { All (λ n. end_in n < vertexes * 2) numbers.now }
    requires few { vertexes ≤ 65536 }
    ensures { IfOk result (λ balanced. IsTrue balanced → AreBalanced numbers.now) }
{
    // The squares show most that aren't balanced, without any counting.
    if numbers.len() > MOST || !have_same_squares(numbers) {
        return Ok(false);
    }
    let links = links_of(alloc, numbers, sectors)?;
    let mut counts = Vec::from_elem(alloc, 0, vertexes * 2)?;
    Ok(are_sectors_balanced(&mut counts, numbers, &links, sectors))
}

// Whether two sums are equal, as they are for balanced numbers: the squares of the numbers for sides that reach a vertex, and of
// those for sides that leave one.
fn have_same_squares(numbers: &[u64]) -> bool
    ensures { IsTrue result ↔ (squares_in 0 numbers.now ≡ squares_in 1 numbers.now) }
{
    let mut reached = 0u64;
    let mut left = 0u64;
    for k in 0..numbers.len() {
        reached = reached.wrapping_add(square_in(0, numbers[k]));
        left = left.wrapping_add(square_in(1, numbers[k]));
    }
    reached == left
}

// The square of a number's sector and vertex, if the number is for this end, else 0.
#[inline]
fn square_in(end: u64, number: u64) -> u64
    ensures value { result ≡ square_in end number }
    ensures below { result < 2 ^ 64 }
{
    // Numbers of 32 bits are squared side by side.
    let pair = number / 2 % (1 << 32);
    if number % 2 == end {
        pair.wrapping_mul(pair)
    } else {
        0
    }
}

// The same, sector by sector, with counts that begin at 0. The counts go on from one sector to the next: if the sectors before
// are balanced, any difference is this one's.
fn are_sectors_balanced<A: Allocator>(
    counts: &mut [u32],
    numbers: &[u64],
    links: &SectorLinks<A>,
    sectors: usize,
) -> bool
    requires links { AreLinks sector_in numbers.now sectors 0 links.now.firsts.items links.now.next.items }
    requires sectors { All (λ n. sector_in n < sectors) numbers.now }
    requires ends { All (λ n. end_in n < length counts.old) numbers.now }
    requires pairs { length counts.old % 2 ≡ 0 }
    requires none { (e : ℕ) → slice_index_or counts.old e 0 ≡ 0 }
    ensures { IsTrue result → AreBalanced numbers.now }
{
    for sector in 0..sectors {
        if !count_sector(counts, numbers, links, sector) {
            return false;
        }
        if !is_sector_balanced(counts, numbers, links, sector) {
            return false;
        }
    }
    true
}

// Adds the ends of a sector's numbers to the counts, and returns whether the counts fit.
fn count_sector<A: Allocator>(
    counts: &mut [u32],
    numbers: &[u64],
    links: &SectorLinks<A>,
    sector: usize,
) -> bool
    requires links { AreLinks sector_in numbers.now (length links.now.firsts.items) 0 links.now.firsts.items links.now.next.items }
    requires within { sector < length links.now.firsts.items }
    requires ends { All (λ n. end_in n < length counts.old) numbers.now }
    requires before { CountEnds (of_sectors sector numbers.now) counts.old }
    ensures counts { IsTrue result → CountEnds (of_sectors (sector + 1) numbers.now) counts.new }
    ensures long { length counts.new ≡ length counts.old }
{
    let mut at = links.firsts[sector] as usize;
    while at < numbers.len() {
        let end = end_in(numbers[at]);
        let Some(count) = counts[end].checked_add(1) else {
            return false;
        };
        counts[end] = count;
        at = links.next[at] as usize;
    }
    true
}

// Whether each vertex of a sector's numbers has as many that leave it as reach it.
fn is_sector_balanced<A: Allocator>(
    counts: &[u32],
    numbers: &[u64],
    links: &SectorLinks<A>,
    sector: usize,
) -> bool
    requires links { AreLinks sector_in numbers.now (length links.now.firsts.items) 0 links.now.firsts.items links.now.next.items }
    requires within { sector < length links.now.firsts.items }
    requires ends { All (λ n. end_in n < length counts.now) numbers.now }
    requires pairs { length counts.now % 2 ≡ 0 }
    ensures { IsTrue result → All (HasBalance counts.now) (of_key sector_in sector numbers.now) }
{
    let mut at = links.firsts[sector] as usize;
    while at < numbers.len() {
        if !has_balance(counts, numbers[at]) {
            return false;
        }
        at = links.next[at] as usize;
    }
    true
}

// Whether the vertex of a number has as many that leave it as reach it.
#[inline]
fn has_balance(counts: &[u32], number: u64) -> bool
    requires end { end_in number < length counts.now }
    requires pairs { length counts.now % 2 ≡ 0 }
    ensures { IsTrue result ↔ HasBalance counts.now number }
{
    let vertex = end_in(number) / 2;
    counts[vertex * 2] == counts[vertex * 2 + 1]
}
