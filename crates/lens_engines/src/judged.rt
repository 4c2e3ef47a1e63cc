//! A level that was looked over.

ghost use Rattle.std.specs.Prelude.{◌≡◌, ◌+◌, ◌<◌, ◌≤◌, ◌^◌, ℕ, IfNone, IfOk, IfSome};
ghost use Rattle.map_audit.specs.Findings.{AuditHolds};
ghost use Rattle.map_level.specs.Findings.{IsFirst};
ghost use Rattle.lens_engines.specs.Judged.{Judges};

use crate::counts::count_all;
use crate::judging::Judging;
use crate::report_counts::ReportCounts;
use crate::unlooked::known_unlooked;
use crate::warned::{Warned, known_warnings};
use level_codes::CodeSet;
use map_audit::Parts;
use map_level::search::Search;
use map_level::{Code, Level};
use map_warnings::Resources;
use std::alloc::{AllocError, Allocator, Global};
use std::marker::Model;

/// A level that was looked over once: how often each code is told of it, the report on its warnings, those that weren't looked
/// for, and what looks for its findings. No finding is kept.
#[derive(Drop)]
pub struct Judged<'l, 'a, A: Allocator = Global> {
    level: &'l Level<'a>,
    parts: Parts<'l, 'a, A>,
    warned: Vec<Warned<A>, A>,
    counts: ReportCounts,
    unlooked: CodeSet,
}

impl<'l, 'a, A: Allocator> Model for Judged<'l, 'a, A> {
    ghost use Rattle.std.specs.Prelude.{◌≡◌};
    ghost use Rattle.lens_engines.specs.Judged.{JudgedLevel};

    ghost Value = { JudgedLevel };

    ghost view = { λ judged. record { level = judged.level.now; warned = judged.warned.items; counts = judged.counts; unlooked = judged.unlooked } };

    ghost invariant = { λ judged. judged.parts ≡ judged.level.now };
}

impl<'l, 'a, A: Allocator + Copy> Judged<'l, 'a, A> {
    /// Looks a level over. It takes two bytes for each node and ssector, and keeps at most so many warnings of one code. The
    /// set's textures and flats are known if warnings are looked for.
    pub fn of(
        alloc: A,
        level: &'l Level<'a>,
        resources: &Option<Resources<'_, '_, A>>,
        most: usize,
        judging: Judging<'_>,
    ) -> Result<Judged<'l, 'a, A>, AllocError>
        ensures { IfOk result (Judges judging.entry resources.now level.now most) }
    {
        let parts = Parts::of(alloc, level)?;
        let found = count_all(&parts);
        let warned = known_warnings(alloc, level, resources, &found, most, judging)?;
        let unlooked = known_unlooked(level, resources, &found, judging);
        let counts = ReportCounts::of(&found, &warned, &judging.ignored);
        Ok(Judged {
            level,
            parts,
            warned,
            counts,
            unlooked,
        })
    }
}

impl<'l, 'a, A: Allocator> Judged<'l, 'a, A> {
    /// The level.
    pub fn level(&self) -> &'l Level<'a>
        ensures { result.now ≡ self.now.level }
    {
        self.level
    }

    /// The report on its warnings: empty if they aren't looked for.
    pub fn warned(&self) -> &[Warned<A>]
        ensures { result.now ≡ self.now.warned }
    {
        &self.warned
    }

    /// How often each code is told of it.
    pub fn counts(&self) -> &ReportCounts
        ensures { result.now ≡ self.now.counts }
    {
        &self.counts
    }

    /// The warnings that were asked for and weren't looked for.
    pub fn unlooked(&self) -> CodeSet
        ensures { result ≡ self.now.unlooked }
    {
        self.unlooked
    }

    /// The first index at which a code holds, from a given one on.
    pub fn first(&self, code: Code, from: u32) -> Option<u32>
        ensures some { IfSome result (IsFirst (AuditHolds self.now.level code) from) }
        ensures none { IfNone result ((i : ℕ) → from ≤ i → ¬ AuditHolds self.now.level code i) }
        ensures below { IfSome result (λ at. at + 1 < 2 ^ 32) }
    {
        self.parts.first(code, from)
    }
}
