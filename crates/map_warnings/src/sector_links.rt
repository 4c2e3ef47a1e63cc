//! The numbers of sides by their sectors: each is linked to the next one of its sector.

ghost use Rattle.std.specs.Prelude.{◌≡◌, ◌^◌, ◌<◌, All, IfOk, length};
ghost use Rattle.map_warnings.specs.KeyLinks.{AreLinks};
ghost use Rattle.map_warnings.specs.Balance.{end_in, sector_in};

use std::alloc::{AllocError, Allocator};

/// `next` has for each number the place of the next one of its sector. `firsts` has for each sector the place of its first
/// number. A place equal to how many numbers there are stands for none. The list that was made last is freed first, so that an
/// arena takes both back.
#[derive(Drop)]
pub struct SectorLinks<A: Allocator> {
    pub next: Vec<u32, A>,
    pub firsts: Vec<u32, A>,
}

/// The sector of a side's number.
#[inline]
pub fn sector_in(number: u64) -> usize
    ensures { result ≡ sector_in number }
{
    (number / 131072) as usize
}

/// The end of a side's number.
#[inline]
pub fn end_in(number: u64) -> usize
    ensures value { result ≡ end_in number }
    ensures below { result < 131072 }
{
    (number % 131072) as usize
}

/// The links of numbers whose sectors are below `sectors`.
pub fn links_of<A: Allocator + Copy>(
    alloc: A,
    numbers: &[u64],
    sectors: usize,
) -> Result<SectorLinks<A>, AllocError>
    requires sectors { All (λ n. sector_in n < sectors) numbers.now }
    requires few { length numbers.now < 2 ^ 32 }
    ensures { IfOk result (λ links. AreLinks sector_in numbers.now sectors 0 links.firsts.items links.next.items) }
{
    let mut firsts = Vec::from_elem(alloc, numbers.len() as u32, sectors)?;
    let mut next = Vec::from_elem(alloc, 0, numbers.len())?;
    link(numbers, &mut firsts, &mut next);
    Ok(SectorLinks { firsts, next })
}

// Links the numbers from the last to the first.
fn link(numbers: &[u64], firsts: &mut [u32], next: &mut [u32])
    requires sectors { All (λ n. sector_in n < length firsts.old) numbers.now }
    requires few { length numbers.now < 2 ^ 32 }
    requires none { AreLinks sector_in numbers.now (length firsts.old) (length numbers.now) firsts.old next.old }
    ensures { AreLinks sector_in numbers.now (length firsts.old) 0 firsts.new next.new }
{
    for i in (0..numbers.len()).rev() {
        let sector = sector_in(numbers[i]);
        next[i] = firsts[sector];
        firsts[sector] = i as u32;
    }
}
