//! The areas of a rectangle: how many of its points lie in each sector, and no more.

ghost use Rattle.std.specs.Prelude.{◌≡◌, ◌+◌, ◌≤◌, ◌++◌, ◌∷◌, [], IfOk, OnOk, length};
ghost use Rattle.map_geo.specs.Rect.{IsRect};
ghost use Rattle.map_tree.specs.Areas.{AreAreas, AreCounted};
ghost use Rattle.map_tree.specs.SectorList.{ListsSectors};
ghost use Rattle.map_tree.specs.Sound.{IsSound};
ghost use Rattle.map_tree.specs.Touched.{IsFresh};

use crate::census::{start, take_newest};
use crate::counts::Areas;
use crate::parts::{Turn, take_turn};
use crate::pieces::Piece;
use crate::sector_counts::SectorCounts;
use crate::sector_tree::SectorTree;
use crate::tally::Tally;
use crate::tree::Tree;
use le_rec::{Node, Table};
use map_geo::Rect;
use map_level::Level;
use std::alloc::{AllocError, Allocator};

impl Tree<'_, '_> {
    /// How many points of a rectangle lie in each sector, as `census` counts them. It takes less time, as
    /// it counts points alone.
    pub fn areas<A: Allocator + Copy>(&self, alloc: A, rect: Rect) -> Result<Areas<A>, AllocError>
        ensures { IfOk result (AreAreas self.now rect) }
    {
        let tree = SectorTree::of(alloc, Tree::of(self.level()))?;
        tree.areas(alloc, rect)
    }
}

impl<B: Allocator> SectorTree<'_, '_, B> {
    /// How many points of a rectangle lie in each sector. For many rectangles make one `Tally`.
    pub fn areas<A: Allocator + Copy>(&self, alloc: A, rect: Rect) -> Result<Areas<A>, AllocError>
        ensures { IfOk result (AreAreas self.now rect) }
    {
        Tally::of(alloc, self)?.areas(rect)
    }
}

// Adds the points of a rectangle to the counts of their sectors. It isn't inlined, so that it has all
// registers.
#[inline(never)]
pub(crate) fn add_points<A: Allocator>(
    level: &Level<'_>,
    sectors: &[u16],
    rect: Rect,
    counts: &mut SectorCounts<A>,
    pending: &mut Vec<Piece, A>,
) -> Result<(), AllocError>
    requires sound { IsSound level.now }
    requires listed { ListsSectors level.now sectors.now }
    requires fresh { IsFresh level.now counts.old }
    ensures long { length counts.new ≡ length counts.old }
    ensures valid { IsRect rect }
    ensures counted { OnOk result (AreCounted level.now rect counts.new) }
{
    let nodes = level.nodes();
    pending.clear();
    let mut hand = start(level, rect);
    loop {
        hand = match take_turn(&nodes, hand) {
            Turn::Down(next) => next,
            Turn::Apart(parts) => {
                keep(pending, parts.first, &nodes)?;
                parts.second
            }
            Turn::AtSsector(t, points) => {
                counts.add(sectors[usize::from(t)], points)?;
                match take_newest(pending) {
                    Some(next) => next,
                    None => return Ok(()),
                }
            }
        };
    }
}

// Keeps a piece pending. With it and the piece in hand there are at most as many as there are nodes, and 16.
#[inline]
fn keep<A: Allocator>(
    pending: &mut Vec<Piece, A>,
    piece: Piece,
    nodes: &Table<'_, Node>,
) -> Result<(), AllocError>
    requires { length pending.old.items + 2 ≤ length nodes.now.records + 16 }
    ensures { OnOk result (pending.new.items ≡ pending.old.items ++ piece ∷ []) }
{
    // Only the clauses speak of the nodes.
    let _nodes = nodes;
    pending.push(piece)?;
    Ok(())
}
