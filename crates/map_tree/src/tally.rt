//! The censuses of many rectangles of one tree.

ghost use Rattle.std.specs.Prelude.{◌≡◌, IfOk, length};
ghost use Rattle.map_tree.specs.Areas.{AreAreas};
ghost use Rattle.map_tree.specs.Counts.{IsCensus};
ghost use Rattle.map_tree.specs.SectorList.{ListsSectors};
ghost use Rattle.map_tree.specs.Sound.{IsSound};
ghost use Rattle.map_tree.specs.Touched.{IsFresh};

use crate::areas::add_points;
use crate::census::{sector_count, tally};
use crate::counts::{Areas, Counts};
use crate::pieces::Piece;
use crate::sector_counts::SectorCounts;
use crate::sector_tree::SectorTree;
use map_geo::Rect;
use map_level::Level;
use std::alloc::{AllocError, Allocator, Global};
use std::marker::Model;

/// The counters for a tree's censuses, made once for many rectangles: a number for each sector, all 0 between two censuses, and
/// the list of pending pieces.
#[derive(Drop)]
pub struct Tally<'t, 'a, A: Allocator = Global> {
    alloc: A,
    level: &'t Level<'a>,
    sectors: &'t [u16],
    counts: SectorCounts<A>,
    pending: Vec<Piece, A>,
}

impl<'t, 'a, A: Allocator> Model for Tally<'t, 'a, A> {
    ghost use Rattle.map_level.specs.Level.{Level};
    ghost use Rattle.map_tree.specs.SectorList.{ListsSectors};
    ghost use Rattle.map_tree.specs.Sound.{IsSound};
    ghost use Rattle.map_tree.specs.Touched.{IsFresh};

    ghost Value = { Level };

    ghost view = { λ t. t.level.now };

    ghost invariant = { λ t. IsSound t.level.now × ListsSectors t.level.now t.sectors.now × IsFresh t.level.now t.counts };
}

impl<'t, 'a, A: Allocator + Copy> Tally<'t, 'a, A> {
    /// What counts the rectangles of a tree.
    pub fn of<B: Allocator>(
        alloc: A,
        tree: &'t SectorTree<'_, 'a, B>,
    ) -> Result<Tally<'t, 'a, A>, AllocError>
        ensures { IfOk result (λ tally. tally ≡ tree.now) }
    {
        let level = tree.level();
        Ok(Tally {
            alloc,
            level,
            sectors: tree.sectors(),
            counts: SectorCounts::zeros(alloc, sector_count(level))?,
            pending: Vec::new(alloc),
        })
    }

    /// How many points of a rectangle lie in each sector. Afterwards the tally is as new, also if a growth was refused.
    ///
    /// It keeps a list of pending pieces, begins with the whole rectangle at the root, and takes the newest first. A piece on one
    /// side of a node's partition goes to that side's child. Any other piece is cut into its lower and upper rows, or, if it is
    /// one row, where its side changes.
    pub fn census(&mut self, rect: Rect) -> Result<Counts<A>, AllocError>
        ensures census { IfOk result (IsCensus self.old rect) }
        ensures same { self.new ≡ self.old }
    {
        let counted = count(
            self.alloc,
            self.level,
            self.sectors,
            rect,
            &mut self.counts,
            &mut self.pending,
        );
        self.counts.clear();
        counted
    }

    /// How many points of a rectangle lie in each sector, as `census` counts them, and nothing else is counted. Afterwards the
    /// tally is as new, also if a growth was refused.
    ///
    /// It works as `census` does, except for a piece that a node's partition cuts at the same column in all rows, as an upright
    /// partition does. That piece is cut there at once. The column is the partition's own, or a division finds it.
    pub fn areas(&mut self, rect: Rect) -> Result<Areas<A>, AllocError>
        ensures areas { IfOk result (AreAreas self.old rect) }
        ensures same { self.new ≡ self.old }
    {
        let counted = count_areas(
            self.alloc,
            self.level,
            self.sectors,
            rect,
            &mut self.counts,
            &mut self.pending,
        );
        self.counts.clear();
        counted
    }
}

// The census of a rectangle, by numbers that are 0.
fn count<A: Allocator + Copy>(
    alloc: A,
    level: &Level<'_>,
    sectors: &[u16],
    rect: Rect,
    counts: &mut SectorCounts<A>,
    pending: &mut Vec<Piece, A>,
) -> Result<Counts<A>, AllocError>
    requires sound { IsSound level.now }
    requires listed { ListsSectors level.now sectors.now }
    requires fresh { IsFresh level.now counts.old }
    ensures census { IfOk result (IsCensus level.now rect) }
    ensures long { length counts.new ≡ length counts.old }
{
    let work = tally(level, sectors, rect, counts, pending)?;
    let pairs = counts.pairs(alloc)?;
    Ok(Counts {
        pairs,
        tests: work.tests,
        pending: work.pending,
    })
}

// The areas of a rectangle, by numbers that are 0.
fn count_areas<A: Allocator + Copy>(
    alloc: A,
    level: &Level<'_>,
    sectors: &[u16],
    rect: Rect,
    counts: &mut SectorCounts<A>,
    pending: &mut Vec<Piece, A>,
) -> Result<Areas<A>, AllocError>
    requires sound { IsSound level.now }
    requires listed { ListsSectors level.now sectors.now }
    requires fresh { IsFresh level.now counts.old }
    ensures areas { IfOk result (AreAreas level.now rect) }
    ensures long { length counts.new ≡ length counts.old }
{
    add_points(level, sectors, rect, counts, pending)?;
    let pairs = counts.pairs(alloc)?;
    Ok(Areas { pairs })
}
