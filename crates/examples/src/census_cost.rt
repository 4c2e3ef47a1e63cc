//! What a census costs.

ghost use Rattle.std.specs.Prelude.{◌*◌, ◌+◌, ◌≤◌, IfOk};
ghost use Rattle.map_geo.specs.Rect.{rows_of};
ghost use Rattle.map_tree.specs.Child.{node_count, root};
ghost use Rattle.map_tree.specs.Work.{Work};

use map_geo::Rect;
use map_tree::Tree;
use std::alloc::{AllocError, Allocator};

/// What a census costs.
#[derive(Clone, Copy, Debug, PartialEq, Eq)]
pub struct CensusWork {
    /// How often a side was asked for.
    pub tests: u64,
    /// The most parts of the rectangle that waited at once, the one in hand included.
    pub pending: u32,
}

/// What the census of a rectangle costs. Its rows and the nodes bound it.
pub fn census_work<A: Allocator + Copy>(
    alloc: A,
    tree: &Tree<'_, '_>,
    rect: Rect,
) -> Result<CensusWork, AllocError>
    ensures work { IfOk result (λ cost. Work tree.now rect (root tree.now) cost.tests cost.pending) }
    ensures tests { IfOk result (λ cost. cost.tests ≤ 18 * rows_of rect * node_count tree.now) }
    ensures pending { IfOk result (λ cost. cost.pending ≤ node_count tree.now + 16) }
{
    let counts = tree.census(alloc, rect)?;
    Ok(CensusWork {
        tests: counts.tests(),
        pending: counts.pending(),
    })
}
