//! A level whose findings are counted.

ghost use Rattle.std.specs.Prelude.{◌≡◌, ◌+◌, ◌<◌, ◌≤◌, ◌^◌, ℕ, IfNone, IfOk, IfSome};
ghost use Rattle.map_audit.specs.Findings.{AuditHolds};
ghost use Rattle.map_level.specs.Findings.{IsFirst};
ghost use Rattle.map_picture.specs.Counts.{CountsFindings};

use crate::finding_counts::{FindingCounts, count_findings};
use map_audit::Parts;
use map_level::search::Search;
use map_level::{Code, Level};
use std::alloc::{AllocError, Allocator, Global};
use std::marker::Model;

/// A level with what looks for its findings, and how many there are. No finding is kept.
#[derive(Drop)]
pub struct CountedLevel<'l, 'a, A: Allocator = Global> {
    level: &'l Level<'a>,
    parts: Parts<'l, 'a, A>,
    counts: FindingCounts,
}

impl<'l, 'a, A: Allocator> Model for CountedLevel<'l, 'a, A> {
    ghost use Rattle.std.specs.Prelude.{◌≡◌};
    ghost use Rattle.map_audit.specs.Findings.{AuditHolds};
    ghost use Rattle.map_level.specs.Level.{Level};
    ghost use Rattle.map_picture.specs.Counts.{CountsFindings};

    ghost Value = { Level };

    ghost view = { λ counted. counted.level.now };

    ghost invariant = { λ counted. (counted.parts ≡ counted.level.now)
        × CountsFindings (AuditHolds counted.level.now) counted.counts };
}

impl<'l, 'a, A: Allocator + Copy> CountedLevel<'l, 'a, A> {
    /// Counts the findings of a level: one pass for each code that is found. It takes two bytes for each node and ssector.
    pub fn of(alloc: A, level: &'l Level<'a>) -> Result<CountedLevel<'l, 'a, A>, AllocError>
        ensures { IfOk result (λ counted. counted ≡ level.now) }
    {
        let parts = Parts::of(alloc, level)?;
        let counts = count_findings(&parts);
        Ok(CountedLevel {
            level,
            parts,
            counts,
        })
    }
}

impl<'l, 'a, A: Allocator> CountedLevel<'l, 'a, A> {
    /// The level.
    pub fn level(&self) -> &'l Level<'a>
        ensures { result.now ≡ self.now }
    {
        self.level
    }

    /// How many findings it has.
    pub fn counts(&self) -> FindingCounts
        ensures { CountsFindings (AuditHolds self.now) result }
    {
        self.counts
    }

    /// The first index at which a code holds, from a given one on.
    pub fn first(&self, code: Code, from: u32) -> Option<u32>
        ensures some { IfSome result (IsFirst (AuditHolds self.now code) from) }
        ensures none { IfNone result ((i : ℕ) → from ≤ i → ¬ AuditHolds self.now code i) }
        ensures below { IfSome result (λ at. at + 1 < 2 ^ 32) }
    {
        self.parts.first(code, from)
    }
}
