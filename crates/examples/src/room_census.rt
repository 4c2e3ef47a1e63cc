//! How much of a rectangle is one room.

ghost use Rattle.std.specs.Prelude.{◌≡◌, ℕ, IfOk};
ghost use Rattle.map_tree.specs.Counts.{ArePairs};
ghost use Rattle.map_tree.specs.PlainCount.{TellsSectors, plain_count};

use map_geo::Rect;
use map_tree::laws::pairs_tell_counts;
use map_tree::{Counts, Tree};
use std::alloc::{AllocError, Allocator};

/// How many points of a rectangle lie in a sector: 0 where none does, or where there is no such sector.
pub fn points_in_sector<A: Allocator + Copy>(
    alloc: A,
    tree: &Tree<'_, '_>,
    rect: Rect,
    sector: u16,
) -> Result<u32, AllocError>
    ensures { IfOk result (λ points. (sector_at : _)
        → TellsSectors tree.now sector_at → points ≡ plain_count sector_at sector rect) }
{
    let counts = tree.census(alloc, rect)?;
    Ok(points_of(&counts, sector))
}

// The number that stands beside a sector.
fn points_of<A: Allocator>(counts: &Counts<A>, sector: u16) -> u32
    ensures { (count : ℕ → ℕ) → ArePairs count counts.now.pairs → result ≡ count sector }
{
    pairs_tell_counts();
    for number in 0..counts.len() {
        if let Some((found, points)) = counts.get(number) {
            if found == sector {
                return points;
            }
        }
    }
    0
}
