//! The results of a census and of areas, each with the list of its pairs.

ghost use Rattle.std.specs.Prelude.{◌≡◌, length};
ghost use Rattle.std.specs.List.{slice_get};

use std::alloc::{Allocator, Global};
use std::marker::Model;

/// How many points of a rectangle lie in each sector, and what it took to count them.
#[derive(Drop)]
pub struct Counts<A: Allocator = Global> {
    pub(crate) pairs: Vec<(u16, u32), A>,
    pub(crate) tests: u64,
    pub(crate) pending: u32,
}

impl<A: Allocator> Model for Counts<A> {
    ghost use Rattle.map_tree.specs.Counts as counts;

    ghost Value = { counts.Counts };

    ghost view = { λ c. record { pairs = c.pairs.items; tests = c.tests; pending = c.pending } };
}

impl<A: Allocator> Counts<A> {
    /// How many sectors have points.
    pub fn len(&self) -> usize
        ensures { result ≡ length self.now.pairs }
    {
        self.pairs.len()
    }

    /// The pair of a number, from 0: a sector, ascending, and how many points it has.
    pub fn get(&self, number: usize) -> Option<(u16, u32)>
        ensures { result ≡ slice_get self.now.pairs number }
    {
        self.pairs.get(number).copied()
    }

    /// How many calls of `whole_side` and `side` the census made.
    pub fn tests(&self) -> u64
        ensures { result ≡ self.now.tests }
    {
        self.tests
    }

    /// The most pieces that were pending at once, the one in hand included.
    pub fn pending(&self) -> u32
        ensures { result ≡ self.now.pending }
    {
        self.pending
    }
}

/// How many points of a rectangle lie in each sector.
#[derive(Drop)]
pub struct Areas<A: Allocator = Global> {
    pub(crate) pairs: Vec<(u16, u32), A>,
}

impl<A: Allocator> Model for Areas<A> {
    ghost use Rattle.std.specs.Prelude.{List, ℕ};

    ghost Value = { List (ℕ × ℕ) };

    ghost view = { λ a. a.pairs.items };
}

impl<A: Allocator> Areas<A> {
    /// How many sectors have points.
    pub fn len(&self) -> usize
        ensures { result ≡ length self.now }
    {
        self.pairs.len()
    }

    /// The pair of a number, from 0: a sector, ascending, and how many points it has.
    pub fn get(&self, number: usize) -> Option<(u16, u32)>
        ensures { result ≡ slice_get self.now number }
    {
        self.pairs.get(number).copied()
    }
}
