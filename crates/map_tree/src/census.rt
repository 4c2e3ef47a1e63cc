//! The census of a rectangle: how many of its points lie in each sector.

ghost use Rattle.std.specs.Prelude.{◌≡◌, ◌<◌, ◌≤◌, ◌++◌, ◌∷◌, [], ℕ, length};
ghost use Rattle.std.specs.Prelude.{IfOk, IfSome, Some, None};
ghost use Rattle.map_geo.specs.Rect.{IsRect};
ghost use Rattle.map_level.specs.SectorOf.{sector_of};
ghost use Rattle.map_tree.specs.Child.{place_of, root};
ghost use Rattle.map_tree.specs.SectorList.{ListsSectors};
ghost use Rattle.map_tree.specs.Sound.{IsSound};
ghost use Rattle.map_tree.specs.Counts.{IsCensus};
ghost use Rattle.map_tree.specs.Steps.{IsTally};
ghost use Rattle.map_tree.specs.Touched.{IsFresh};

use crate::counts::Counts;
use crate::cut::step;
use crate::pieces::{Piece, Step};
use crate::sector_counts::SectorCounts;
use crate::sector_tree::SectorTree;
use crate::tally::Tally;
use crate::tree::{Tree, root_word};
use map_geo::Rect;
use map_level::Level;
use std::alloc::{AllocError, Allocator};

// How many sectors the sector number of a sidedef can name.
const SECTOR_NUMBERS: usize = 65_536;

impl Tree<'_, '_> {
    /// How many points of a rectangle lie in each sector, by a list of the ssectors' sectors. For
    /// many rectangles make that list once, as a `SectorTree`.
    pub fn census<A: Allocator + Copy>(&self, alloc: A, rect: Rect) -> Result<Counts<A>, AllocError>
        ensures { IfOk result (IsCensus self.now rect) }
    {
        let tree = SectorTree::of(alloc, Tree::of(self.level()))?;
        tree.census(alloc, rect)
    }
}

impl<B: Allocator> SectorTree<'_, '_, B> {
    /// How many points of a rectangle lie in each sector. For many rectangles make one `Tally`.
    pub fn census<A: Allocator + Copy>(&self, alloc: A, rect: Rect) -> Result<Counts<A>, AllocError>
        ensures { IfOk result (IsCensus self.now rect) }
    {
        Tally::of(alloc, self)?.census(rect)
    }
}

// How many numbers of sectors there can be.
pub(crate) fn sector_count(level: &Level<'_>) -> usize
    ensures within { (t k : ℕ) → sector_of level.now t ≡ Some k → k < 65536 → k < result }
    ensures few { result ≤ 65536 }
    ensures own { result ≤ length level.now.sectors.records }
{
    level.sectors().len().min(SECTOR_NUMBERS)
}

// The whole rectangle at the root.
#[inline]
pub(crate) fn start(level: &Level<'_>, rect: Rect) -> Piece
    requires { IsSound level.now }
    ensures rect { result.rect ≡ rect }
    ensures word { place_of result.word ≡ root level.now }
    ensures valid { IsRect rect }
{
    // The clause of a bound says that the rectangle is valid.
    let _column = rect.x0();
    Piece {
        rect,
        word: root_word(level.nodes().len()),
    }
}

// How many tests a census made, and the most pieces that it had pending at once.
#[derive(Clone, Copy)]
pub(crate) struct Work {
    pub tests: u64,
    pub pending: u32,
}

// Adds the points of a rectangle to the counts of their sectors. It isn't inlined, so that it has all
// registers.
#[inline(never)]
pub(crate) fn tally<A: Allocator>(
    level: &Level<'_>,
    sectors: &[u16],
    rect: Rect,
    counts: &mut SectorCounts<A>,
    pending: &mut Vec<Piece, A>,
) -> Result<Work, AllocError>
    requires sound { IsSound level.now }
    requires listed { ListsSectors level.now sectors.now }
    requires fresh { IsFresh level.now counts.old }
    ensures long { length counts.new ≡ length counts.old }
    ensures valid { IsRect rect }
    ensures tally { IfOk result
        (λ work. IsTally level.now rect counts.new work.tests work.pending) }
{
    let nodes = level.nodes();
    pending.clear();
    let mut hand = start(level, rect);
    let mut tests = 0;
    let mut most: usize = 1;
    loop {
        hand = match step(&nodes, hand) {
            Step::Down(next) => {
                tests += 1;
                next
            }
            Step::Apart(halves) => {
                pending.push(halves.first)?;
                tests += halves.tests;
                most = most.max(pending.len() + 1);
                halves.second
            }
            Step::AtSsector(t, points) => {
                counts.add(sectors[usize::from(t)], points)?;
                match take_newest(pending) {
                    Some(next) => next,
                    None => return Ok(Work {
                        tests,
                        pending: most as u32,
                    }),
                }
            }
        };
    }
}

// Takes the newest of the pending pieces.
#[inline]
pub(crate) fn take_newest<A: Allocator>(pending: &mut Vec<Piece, A>) -> Option<Piece>
    ensures some { IfSome result (λ p. pending.old.items ≡ pending.new.items ++ p ∷ []) }
    ensures none { result ≡ None → pending.old.items ≡ [] }
{
    pending.pop()
}
