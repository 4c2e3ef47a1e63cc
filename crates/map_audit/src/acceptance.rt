//! Which levels are accepted: those without a fault.

ghost use Rattle.std.specs.Prelude.{◌≡◌, IfOk, OnOk, OnErr, IfErr, MatchOption};
ghost use Rattle.map_level.specs.Findings.{NoFaultHolds};
ghost use Rattle.map_level.specs.LinkFaults.{LinkHolds};
ghost use Rattle.map_tree.specs.Sound.{IsSound};
ghost use Rattle.map_audit.specs.Refusal.{Refuses};

use crate::auditing::audit;
use crate::report::Report;
use map_level::Level;
use map_tree::{Tree, is_sound};
use std::alloc::{AllocError, Allocator, Global};
use thiserror::Error;

/// Why a level isn't accepted.
#[derive(Debug, Drop, Error)]
pub enum Refused<A: Allocator = Global> {
    /// It has faults: all its findings.
    #[error("not sound: faults {}, notes {}", .0.faults(), .0.notes())]
    Faults(Report<A>),
    /// Memory was refused.
    #[error("no memory left")]
    Memory,
}

impl<A: Allocator> From<AllocError> for Refused<A> {
    ghost use Rattle.std.specs.Prelude.{◌≡◌};
    ghost use Rattle.map_audit.specs.declared.acceptance.Refused.TheVariants.{Memory};

    ghost from_gives = { λ _ result. result ≡ Memory };

    fn from(_fault: AllocError) -> Refused<A> {
        Refused::Memory
    }
}

/// The tree of a sound level, or all findings of another. Notes don't refuse.
pub fn accept<'l, 'a, A: Allocator + Copy>(
    alloc: A,
    level: &'l Level<'a>,
) -> Result<Tree<'l, 'a>, Refused<A>>
    ensures tree { IfOk result (λ tree. tree ≡ level.now) }
    ensures sound { OnOk result (IsSound level.now) }
    ensures refused { IfErr result (Refuses level.now) }
{
    let report = audit(alloc, level)?;
    if report.faults() > 0 {
        return Err(Refused::Faults(report));
    }
    Ok(Tree::of(level))
}

/// The tree of a sound level, or None for another: what `accept` decides, with no report. It stops at the first fault, and takes
/// memory only if no link has one.
pub fn sound_tree<'l, 'a, A: Allocator + Copy>(
    alloc: A,
    level: &'l Level<'a>,
) -> Result<Option<Tree<'l, 'a>>, AllocError>
    ensures found { IfOk result (λ found.
        MatchOption found (¬ IsSound level.now) (λ tree. (tree ≡ level.now) × IsSound level.now)) }
    ensures linked { OnErr result (NoFaultHolds (LinkHolds level.now)) }
{
    if !is_sound(alloc, level)? {
        return Ok(None);
    }
    Ok(Some(Tree::of(level)))
}
