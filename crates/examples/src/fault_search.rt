//! The first fault of a level.

ghost use Rattle.std.specs.Prelude.{◌≡◌, ◌↔◌, Some, IfOk, IfSome, IfNone, IsNone, IsTrue};
ghost use Rattle.std.specs.List.{slice_get};
ghost use Rattle.map_level.specs.Findings.{is_fault};
ghost use Rattle.map_tree.specs.Sound.{IsSound};
ghost use Rattle.examples.specs.FaultSearch.{IsFirstFault};

use map_audit::laws::{faults_stand_first, sound_is_no_fault};
use map_audit::{Report, audit};
use map_level::{Finding, Level};
use std::alloc::{AllocError, Allocator};

/// The first fault in a level's report, with the number of its record; None if the level is sound.
pub fn first_fault<A: Allocator + Copy>(
    alloc: A,
    level: &Level<'_>,
) -> Result<Option<Finding>, AllocError>
    ensures some { IfOk result (λ found. IfSome found (IsFirstFault level.now)) }
    ensures none { IfOk result (λ found. IsNone found ↔ IsSound level.now) }
{
    faults_stand_first();
    sound_is_no_fault();
    let report = audit(alloc, level)?;
    Ok(leading_fault(&report))
}

// The first finding, if it is a fault. Faults come before notes, so none comes after a note.
fn leading_fault<A: Allocator>(report: &Report<A>) -> Option<Finding>
    ensures some { IfSome result (λ first.
        (slice_get report.now 0 ≡ Some first) × IsTrue (is_fault first.code)) }
    ensures none { IfNone result
        ((first : _) → slice_get report.now 0 ≡ Some first → ¬ IsTrue (is_fault first.code)) }
{
    let first = report.get(0)?;
    if !first.code.is_fault() {
        return None;
    }
    Some(first)
}
