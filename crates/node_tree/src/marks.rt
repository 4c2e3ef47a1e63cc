//! Which places are reached from the root.

ghost use Rattle.std.specs.Prelude.{◌≡◌, ◌<◌, ◌^◌, ℕ, [], false, length, slice_index_or};
ghost use Rattle.std.specs.Prelude.{IfOk, IfSome, OnOk};
ghost use Rattle.node_tree.specs.Slots.{slot_count};
ghost use Rattle.map_tree.specs.Marks.{IsMarking, AreMarking};
ghost use Rattle.node_tree.specs.Marks.{AreReached};

use crate::forked::{Children, Forked};
use crate::places::Places;
use std::alloc::{AllocError, Allocator};

/// A mark for each place that is reached.
pub fn reached_places<T: Forked, A: Allocator + Copy>(
    alloc: A,
    places: &Places<'_, T>,
) -> Result<Vec<bool, A>, AllocError>
    ensures { IfOk result (λ marks. AreReached (T.shape places.now) marks.items) }
{
    let count = places.nodes() + places.ssectors();
    let mut marks = vec![in alloc; false; count]?;
    mark_reached(&mut marks, Vec::new(alloc), places)?;
    Ok(marks)
}

// Marks each place that is reached. The list of places still to visit is empty at first.
fn mark_reached<T: Forked, A: Allocator>(
    marks: &mut [bool],
    mut waits: Vec<u32, A>,
    places: &Places<'_, T>,
) -> Result<(), AllocError>
    requires long { length marks.old ≡ slot_count (T.shape places.now) }
    requires few { length marks.old < 2 ^ 32 }
    requires off { (k : ℕ) → slice_index_or marks.old k false ≡ false }
    requires none { waits.items ≡ [] }
    ensures { OnOk result (AreReached (T.shape places.now) marks.new) }
{
    mark(marks, &mut waits, places.root())?;
    while let Some(k) = waits.pop() {
        mark_children(marks, &mut waits, places.children(k as usize))?;
    }
    Ok(())
}

// Marks the two children of a node.
#[inline]
#[tactic(auto, using(map_tree::proofs::MarkLemmas::both_marking))]
fn mark_children<A: Allocator>(
    marks: &mut [bool],
    waits: &mut Vec<u32, A>,
    children: Children,
) -> Result<(), AllocError>
    requires front { IfSome children.front (λ k. k < length marks.old) }
    requires back { IfSome children.back (λ k. k < length marks.old) }
    requires few { length marks.old < 2 ^ 32 }
    ensures { OnOk result (AreMarking children.front children.back
        marks.old marks.new waits.old.items waits.new.items) }
{
    mark(marks, waits, children.front)?;
    mark(marks, waits, children.back)?;
    Ok(())
}

// Marks a place, or none. The place then waits for its visit, unless it was marked before.
#[inline]
fn mark<A: Allocator>(
    marks: &mut [bool],
    waits: &mut Vec<u32, A>,
    place: Option<usize>,
) -> Result<(), AllocError>
    requires within { IfSome place (λ k. k < length marks.old) }
    requires few { length marks.old < 2 ^ 32 }
    ensures { OnOk result (IsMarking place marks.old marks.new waits.old.items waits.new.items) }
{
    let Some(k) = place else {
        return Ok(());
    };
    if marks[k] {
        return Ok(());
    }
    waits.push(k as u32)?;
    marks[k] = true;
    Ok(())
}
