//! The numbers of a census: how many points each sector has so far.

ghost use Rattle.std.specs.Prelude.{◌≡◌, ◌+◌, ◌<◌, ◌^◌, ◌++◌, ◌∷◌, [], ℕ, All, IfOk, OnErr, OnOk, length, map, set, slice_index};
ghost use Rattle.map_tree.specs.Counts.{ArePairs};

use std::alloc::{AllocError, Allocator, Global};
use std::marker::Model;

/// A number for each sector, and a list of those above 0. So neither listing nor clearing them goes over the
/// others. Contracts see the numbers.
#[derive(Drop)]
pub struct SectorCounts<A: Allocator = Global> {
    numbers: Vec<u32, A>,
    touched: Vec<u16, A>,
}

impl<A: Allocator> Model for SectorCounts<A> {
    ghost use Rattle.std.specs.Prelude.{List, ℕ, ◌≤◌, length};
    ghost use Rattle.map_tree.specs.Touched.{Touches};

    ghost Value = { List ℕ };

    ghost view = { λ c. c.numbers.items };

    ghost invariant = { λ c. Touches c.numbers.items c.touched.items };
}

impl<A: Allocator> SectorCounts<A> {
    /// So many zeros.
    pub fn zeros(alloc: A, sectors: usize) -> Result<SectorCounts<A>, AllocError>
    where
        A: Copy,
        ensures zeros { IfOk result (λ counts. (s : ℕ) → slice_index counts s ≡ 0) }
        ensures long { IfOk result (λ counts. length counts ≡ sectors) }
    {
        Ok(SectorCounts {
            numbers: vec![in alloc; 0; sectors]?,
            touched: Vec::new(alloc),
        })
    }

    /// Adds points to the number of a sector.
    #[inline]
    pub fn add(&mut self, sector: u16, points: u32) -> Result<(), AllocError>
        requires within { sector < length self.old }
        requires some { 0 < points }
        requires fits { slice_index self.old sector + points < 2 ^ 32 }
        ensures ok { OnOk result (self.new ≡ set self.old sector (slice_index self.old sector + points)) }
        ensures err { OnErr result (self.new ≡ self.old) }
    {
        let s = usize::from(sector);
        if self.numbers[s] == 0 {
            touch(&mut self.touched, sector)?;
        }
        self.numbers[s] += points;
        Ok(())
    }

    /// The sectors with points and how many they have.
    pub fn pairs<B: Allocator>(&mut self, alloc: B) -> Result<Vec<(u16, u32), B>, AllocError>
        ensures pairs { IfOk result (λ v. ArePairs (slice_index self.old) v.items) }
        ensures same { self.new ≡ self.old }
    {
        self.touched.sort_unstable();
        numbered(alloc, &self.touched, &self.numbers)
    }

    /// Makes all numbers 0.
    pub fn clear(&mut self)
        ensures zeros { (s : ℕ) → slice_index self.new s ≡ 0 }
        ensures long { length self.new ≡ length self.old }
    {
        while let Some(sector) = self.touched.pop() {
            self.numbers[usize::from(sector)] = 0;
        }
    }
}

// Lists one sector more.
#[cold]
#[inline(never)]
fn touch<A: Allocator>(touched: &mut Vec<u16, A>, sector: u16) -> Result<(), AllocError>
    ensures ok { OnOk result (touched.new.items ≡ touched.old.items ++ sector ∷ []) }
    ensures err { OnErr result (touched.new.items ≡ touched.old.items) }
{
    touched.push(sector)?;
    Ok(())
}

// Each of the sectors with its number.
fn numbered<A: Allocator>(
    alloc: A,
    sectors: &[u16],
    numbers: &[u32],
) -> Result<Vec<(u16, u32), A>, AllocError>
    requires { All (λ s. s < length numbers.now) sectors.now }
    ensures { IfOk result (λ v. v.items ≡ map (λ s. (s, slice_index numbers.now s)) sectors.now) }
{
    let mut pairs = Vec::with_capacity(alloc, sectors.len())?;
    for sector in sectors {
        pairs.push((*sector, numbers[usize::from(*sector)]))?;
    }
    Ok(pairs)
}
