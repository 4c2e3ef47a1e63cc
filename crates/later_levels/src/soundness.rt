//! Which levels with later nodes are sound.

ghost use Rattle.std.specs.Prelude.{◌↔◌, IfOk, IsTrue};
ghost use Rattle.later_levels.specs.Sound.{IsSound};

use crate::codes::Parts;
use crate::later_level::LaterLevel;
use map_level::search::has_no_fault;
use std::alloc::{AllocError, Allocator};

/// Whether the level is sound: none of the faults F3 to F17 holds. It takes no memory for findings.
pub fn is_sound<A: Allocator + Copy>(alloc: A, one: &LaterLevel<'_, '_>) -> Result<bool, AllocError>
    ensures { IfOk result (λ sound. IsTrue sound ↔ IsSound one.now) }
{
    let parts = Parts::of(alloc, one)?;
    Ok(has_no_fault(&parts))
}
