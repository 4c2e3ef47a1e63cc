//! What a node builder left: whether its nodes, and its REJECT and BLOCKMAP, are without a finding.

ghost use Rattle.std.specs.Prelude.{◌↔◌, ℕ, IfOk, IsTrue};
ghost use Rattle.map_level.specs.declared.finding.Code.{Code};
ghost use Rattle.map_tables.specs.TableFaults.{TableHolds};
ghost use Rattle.map_tree.specs.TreeFaults.{TreeHolds};

use map_level::Level;
use map_tables::table_findings;
use map_tree::tree_findings;
use std::alloc::{AllocError, Allocator};

/// Whether nothing is found at the nodes of a level: each is named once, reached, in range and has a direction.
pub fn nodes_are_clean<A: Allocator + Copy>(alloc: A, level: &Level<'_>) -> Result<bool, AllocError>
    ensures { IfOk result (λ clean. IsTrue clean ↔ ((code : Code) (i : ℕ) → ¬ TreeHolds level.now code i)) }
{
    let found = tree_findings(alloc, level)?;
    Ok(found.len() == 0)
}

/// Whether nothing is found at a level's REJECT and BLOCKMAP. REJECT has the size that it needs, BLOCKMAP as
/// many words as its blocks need, and each of its lists ends inside.
pub fn tables_are_clean<A: Allocator + Copy>(
    alloc: A,
    level: &Level<'_>,
) -> Result<bool, AllocError>
    ensures { IfOk result (λ clean. IsTrue clean ↔ ((code : Code) (i : ℕ) → ¬ TableHolds level.now code i)) }
{
    let found = table_findings(alloc, level)?;
    Ok(found.len() == 0)
}
