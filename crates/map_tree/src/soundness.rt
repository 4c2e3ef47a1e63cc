//! Which levels are sound.

ghost use Rattle.std.specs.Prelude.{◌↔◌, IfOk, IsTrue, OnErr};
ghost use Rattle.map_level.specs.Findings.{NoFaultHolds};
ghost use Rattle.map_level.specs.LinkFaults.{LinkHolds};
ghost use Rattle.map_tree.specs.Sound.{IsSound};

use crate::tree_codes::Nodes;
use map_level::search::has_no_fault;
use map_level::{Level, Links};
use std::alloc::{AllocError, Allocator};

/// Whether the level is sound: none of the faults F3 to F18 holds. It stops at the first fault, and looks at the nodes only
/// if no link has one. It takes no memory for findings, and none for a level whose links have a fault.
pub fn is_sound<A: Allocator + Copy>(alloc: A, level: &Level<'_>) -> Result<bool, AllocError>
    ensures sound { IfOk result (λ sound. IsTrue sound ↔ IsSound level.now) }
    ensures linked { OnErr result (NoFaultHolds (LinkHolds level.now)) }
{
    let links = Links::of(level);
    if !has_no_fault(&links) {
        return Ok(false);
    }
    let nodes = Nodes::of(alloc, level)?;
    Ok(has_no_fault(&nodes))
}
