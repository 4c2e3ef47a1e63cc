//! What cells show, one after another.

ghost use Rattle.std.specs.Prelude.{◌≡◌, ◌≢◌, ◌++◌, ◌∷◌, ◌<◌, ◌≤◌, ℕ, [], Some, IfOk, OnOk, length, replicate};
ghost use Rattle.std.specs.List.{slice_get};
ghost use Rattle.map_cells.specs.Seen.{seen_of};

use std::alloc::{AllocError, Allocator, Global};
use std::marker::Model;

/// A cell's number is its code plus this times how many cells after it are known to show the same.
const CODES: u32 = 131_072;

/// What cells show, in order: four bytes a cell. A cell's code is 0 if it shows nothing, and else one more than the sector's
/// number. Of cells that came together, the first knows of the others.
#[derive(Drop)]
pub struct Seen<A: Allocator = Global> {
    numbers: Vec<u32, A>,
    // The greatest code.
    bound: u32,
}

impl<A: Allocator> Model for Seen<A> {
    ghost use Rattle.std.specs.Prelude.{◌≤◌, ℕ, List, Option, map, slice_index_or};
    ghost use Rattle.map_cells.specs.Seen.{code_in, AreKnown, shown_in};

    ghost Value = { List (Option ℕ) };

    ghost view = { λ s. map shown_in s.numbers.items };

    ghost invariant = { λ s. AreKnown s.numbers.items
        × ((k : ℕ) → code_in (slice_index_or s.numbers.items k 0) ≤ s.bound) × (s.bound ≤ 65536) };
}

impl<A: Allocator> Seen<A> {
    /// No cells, with room for so many.
    pub fn with_capacity(alloc: A, room: usize) -> Result<Seen<A>, AllocError>
        ensures { IfOk result (λ seen. seen ≡ []) }
    {
        let numbers = Vec::with_capacity(alloc, room)?;
        Ok(Seen { numbers, bound: 0 })
    }

    /// A cell more.
    #[inline]
    pub fn push(&mut self, shown: Option<u16>) -> Result<(), AllocError>
        ensures { OnOk result (self.new ≡ self.old ++ shown ∷ []) }
    {
        let code = code_of(shown);
        self.numbers.push(code)?;
        self.bound = self.bound.max(code);
        Ok(())
    }

    /// So many cells more that show the same. Most are none or one.
    #[inline(always)]
    pub fn push_same(&mut self, shown: Option<u16>, count: usize) -> Result<(), AllocError>
        requires { count ≤ 1024 }
        ensures { OnOk result (self.new ≡ self.old ++ replicate count shown) }
    {
        if count == 0 {
            return Ok(());
        }
        if count == 1 {
            return self.push(shown);
        }
        self.push_group(shown, count)
    }

    // The same of some cells, of which the first knows of the others.
    fn push_group(&mut self, shown: Option<u16>, count: usize) -> Result<(), AllocError>
        requires some { 0 < count }
        requires few { count ≤ 1024 }
        ensures { OnOk result (self.new ≡ self.old ++ replicate count shown) }
    {
        let code = code_of(shown);
        let first = self.numbers.len();
        self.numbers.resize(first + count, code)?;
        self.numbers[first] = code + (count as u32 - 1) * CODES;
        self.bound = self.bound.max(code);
        Ok(())
    }

    /// How many cells there are.
    #[inline]
    pub fn len(&self) -> usize
        ensures { result ≡ length self.now }
    {
        self.numbers.len()
    }

    /// What the cell at a place shows.
    #[inline]
    pub fn get(&self, place: usize) -> Option<u16>
        requires { place < length self.now }
        ensures { slice_get self.now place ≡ Some result }
    {
        shown_of(self.numbers[place] % CODES)
    }

    /// A place up to which all cells, from a given one on, are known to show the same.
    #[inline]
    pub fn known_end(&self, place: usize) -> usize
        requires { place < length self.now }
        ensures after { place < result }
        ensures few { result ≤ length self.now }
        ensures same { (k : ℕ) → place ≤ k → k < result → slice_get self.now k ≡ slice_get self.now place }
    {
        let behind = (self.numbers[place] / CODES) as usize;
        place + behind + 1
    }

    /// The first place after `from` whose cell shows something else, or `to`.
    #[inline]
    pub fn same_end(&self, from: usize, to: usize) -> usize
        requires some { from < to }
        requires within { to ≤ length self.now }
        ensures after { from < result }
        ensures few { result ≤ to }
        ensures same { (k : ℕ) → from ≤ k → k < result → slice_get self.now k ≡ slice_get self.now from }
        ensures stops { result < to → slice_get self.now result ≢ slice_get self.now from }
    {
        let code = self.numbers[from] % CODES;
        let mut k = self.known_end(from);
        while k < to {
            if self.numbers[k] % CODES != code {
                return k;
            }
            k = self.known_end(k);
        }
        to
    }

    /// A number above each sector that is shown.
    #[inline]
    pub fn bound(&self) -> usize
        ensures listed { (p s : ℕ) → slice_get self.now p ≡ Some (Some s) → s < result }
        ensures few { result ≤ 65536 }
    {
        self.bound as usize
    }
}

// The code of what is shown.
#[inline]
fn code_of(shown: Option<u16>) -> u32
    ensures is { seen_of result ≡ shown }
    ensures few { result ≤ 65536 }
{
    match shown {
        Some(sector) => u32::from(sector) + 1,
        None => 0,
    }
}

// What a code stands for.
#[inline]
fn shown_of(code: u32) -> Option<u16>
    requires { code ≤ 65536 }
    ensures { result ≡ seen_of code }
{
    if code == 0 {
        return None;
    }
    Some((code - 1) as u16)
}
