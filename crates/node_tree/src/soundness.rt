//! Which trees are sound.

ghost use Rattle.std.specs.Prelude.{◌↔◌, IfOk, IsTrue};
ghost use Rattle.node_tree.specs.Sound.{IsSound};

use crate::codes::Nodes;
use crate::forked::Forked;
use map_level::search::has_no_fault;
use std::alloc::{AllocError, Allocator};

/// Whether a tree is sound: there is an ssector, and none of the faults F11 to F16 holds. It stops at the first fault, and
/// takes no memory for findings.
pub fn is_sound<T: Forked, A: Allocator + Copy>(alloc: A, tree: &T) -> Result<bool, AllocError>
    ensures { IfOk result (λ sound. IsTrue sound ↔ IsSound (T.shape tree.now)) }
{
    if tree.ssector_count() == 0 {
        return Ok(false);
    }
    let nodes = Nodes::of(alloc, tree)?;
    Ok(has_no_fault(&nodes))
}
