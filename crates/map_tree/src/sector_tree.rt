//! The tree of a sound level with the sector of each of its ssectors (`P_GroupLines` of linuxdoom 1.10).

ghost use Rattle.std.specs.Prelude.{◌≡◌, ◌<◌, ℕ, Some, IfOk};
ghost use Rattle.std.specs.List.{All};
ghost use Rattle.map_level.specs.SectorOf.{sector_of};
ghost use Rattle.map_tree.specs.Child.{ssector_count};
ghost use Rattle.map_tree.specs.Leaf.{Each, IsLeaf, LiesIn};
ghost use Rattle.map_tree.specs.SectorList.{ListsSectors};
ghost use Rattle.map_tree.specs.Sound.{IsSound};

use crate::tree::Tree;
use map_geo::Point;
use map_level::Level;
use std::alloc::{AllocError, Allocator, Global};
use std::marker::Model;

/// The tree of a sound level with a list of its ssectors' sectors, two bytes each. So no link is followed for a point
/// or a rectangle.
#[derive(Drop)]
pub struct SectorTree<'l, 'a, A: Allocator = Global> {
    tree: Tree<'l, 'a>,
    sectors: Vec<u16, A>,
}

impl<'l, 'a, A: Allocator> Model for SectorTree<'l, 'a, A> {
    ghost use Rattle.map_level.specs.Level.{Level};
    ghost use Rattle.map_tree.specs.SectorList.{ListsSectors};
    ghost use Rattle.map_tree.specs.Sound.{IsSound};

    ghost Value = { Level };

    ghost view = { λ s. s.tree };

    ghost invariant = { λ s. IsSound s.tree × ListsSectors s.tree s.sectors.items };
}

impl<'l, 'a, A: Allocator> SectorTree<'l, 'a, A> {
    /// The tree with each ssector's sector.
    pub fn of(alloc: A, tree: Tree<'l, 'a>) -> Result<SectorTree<'l, 'a, A>, AllocError>
        ensures { IfOk result (λ found. found ≡ tree.entry) }
    {
        let sectors = ssector_sectors(alloc, tree.level())?;
        Ok(SectorTree { tree, sectors })
    }

    /// The numbers of the ssector and of the sector in which the point lies.
    #[inline]
    pub fn leaf(&self, point: Point) -> (u16, u16)
        ensures leaf { IsLeaf self.now point result.0 }
        ensures only { (t : ℕ) → IsLeaf self.now point t → t ≡ result.0 }
        ensures sector { sector_of self.now result.0 ≡ Some result.1 }
    {
        let (t, _tests) = self.tree.leaf(point);
        self.with_sector(t)
    }

    /// The numbers of the ssectors and of the sectors in which four points lie, in their order.
    #[inline]
    pub fn leaves(&self, points: [Point; 4]) -> [(u16, u16); 4]
        ensures { Each (LiesIn self.now) points result }
    {
        self.with_sectors(self.tree.leaves(points))
    }

    // Ssectors and their sectors.
    #[inline]
    fn with_sectors(&self, found: [u16; 4]) -> [(u16, u16); 4]
        requires { All (λ t. t < ssector_count self.now) found }
        ensures { Each (λ t pair. (pair.0 ≡ t) × (sector_of self.now t ≡ Some pair.1)) found result }
    {
        let [a, b, c, d] = found;
        [
            self.with_sector(a),
            self.with_sector(b),
            self.with_sector(c),
            self.with_sector(d),
        ]
    }

    // An ssector and its sector.
    #[inline]
    fn with_sector(&self, t: u16) -> (u16, u16)
        requires { t < ssector_count self.now }
        ensures ssector { result.0 ≡ t }
        ensures sector { sector_of self.now t ≡ Some result.1 }
    {
        (t, self.sectors[usize::from(t)])
    }

    // The level.
    #[inline]
    pub(crate) fn level(&self) -> &'l Level<'a>
        ensures is { result.now ≡ self.now }
        ensures sound { IsSound self.now }
    {
        self.tree.level()
    }

    /// The allocator of the list of sectors, for what else is kept as long. No clause says which it is:
    /// contracts see of a tree its level alone.
    pub fn allocator(&self) -> &A {
        self.sectors.allocator()
    }

    /// The sector of each ssector, by its number.
    #[inline]
    pub fn sectors(&self) -> &[u16]
        ensures { ListsSectors self.now result.now }
    {
        &self.sectors
    }
}

// The sector of each ssector.
fn ssector_sectors<A: Allocator>(alloc: A, level: &Level<'_>) -> Result<Vec<u16, A>, AllocError>
    requires { IsSound level.now }
    ensures { IfOk result (λ sectors. ListsSectors level.now sectors.items) }
{
    let count = level.ssectors().len();
    let mut sectors = Vec::with_capacity(alloc, count)?;
    for t in 0..count {
        sectors.push(level.ssector_sector(t as u32))?;
    }
    Ok(sectors)
}
