//! How often each code of a report is told of a level.

ghost use Rattle.std.specs.Prelude.{◌≡◌, ◌<◌, ◌^◌, ◌-◌, min, sum};
ghost use Rattle.level_codes.specs.Sets.{counted_codes};
ghost use Rattle.map_audit.specs.Findings.{AuditHolds};
ghost use Rattle.map_level.specs.Level.{Level};
ghost use Rattle.map_level.specs.declared.finding.Code.{Code};
ghost use Rattle.lens_engines.specs.Counts.{AreCounts, fault_total, note_total};
ghost use Rattle.lens_engines.specs.ReportCounts.{AreReportCounts, count_at, count_of, told_count, warning_total};

use crate::counts::CodeCounts;
use crate::ignored::ignores;
use crate::warned::Warned;
use level_codes::{CodeSet, REPORT_COUNT, ReportCode};
use map_level::search::CODE_COUNT;
use std::alloc::Allocator;
use std::marker::Model;

// The rank of the first note.
const FIRST_NOTE: usize = 18;

/// How many findings and warnings of each code are told of a level, by the codes' ranks. There are none of an ignored code, and
/// no warnings where these aren't asked for.
#[derive(Drop)]
pub struct ReportCounts {
    counts: [u64; REPORT_COUNT],
}

impl Model for ReportCounts {
    ghost use Rattle.std.specs.Prelude.{List, ℕ};
    ghost use Rattle.lens_engines.specs.ReportCounts.{FitReport};

    ghost Value = { List ℕ };

    ghost view = { λ c. c.counts };

    ghost invariant = { λ c. FitReport c.counts };
}

impl ReportCounts {
    /// Those of a level whose codes of findings hold so often, and of the report on its warnings.
    pub(crate) fn of<A: Allocator>(
        found: &CodeCounts,
        warned: &[Warned<A>],
        ignored: &CodeSet,
    ) -> ReportCounts
        ensures { (level : Level) → AreCounts (AuditHolds level) found.now
            → AreReportCounts ignored.now level warned.now result }
    {
        let mut counts = [0; REPORT_COUNT];
        for rank in 0..REPORT_COUNT {
            counts[rank] = told_count(found, warned, ignored, ReportCode::at(rank));
        }
        ReportCounts { counts }
    }

    /// The same numbers.
    pub fn copied(&self) -> ReportCounts
        ensures { result ≡ self.now }
    {
        ReportCounts {
            counts: self.counts,
        }
    }

    /// The codes of which there are any.
    pub fn told(&self) -> CodeSet
        ensures { result ≡ counted_codes self.now }
    {
        CodeSet::counted(&self.counts)
    }

    /// How many there are of a code.
    pub fn get(&self, code: ReportCode) -> u64
        ensures { result ≡ count_of self.now code }
    {
        self.counts[code.rank()]
    }

    /// How many of the findings are faults.
    pub fn faults(&self) -> u64
        ensures { result ≡ fault_total self.now }
    {
        total(&self.counts[..FIRST_NOTE])
    }

    /// How many of them are notes.
    pub fn notes(&self) -> u64
        ensures { result ≡ note_total self.now }
    {
        total(&self.counts[FIRST_NOTE..CODE_COUNT])
    }

    /// How many warnings there are, up to the greatest number of 64 bits.
    pub fn warnings(&self) -> u64
        ensures { result ≡ warning_total self.now }
    {
        total(&self.counts[CODE_COUNT..])
    }
}

// How many of a code are told: none of an ignored code.
fn told_count<A: Allocator>(
    found: &CodeCounts,
    warned: &[Warned<A>],
    ignored: &CodeSet,
    code: ReportCode,
) -> u64
    ensures value { result ≡ told_count found.now warned.now ignored.now code }
    ensures few { (finding : Code) → code ≡ ReportCode.Finding finding → result < 2 ^ 32 }
{
    match code {
        ReportCode::Finding(finding) => {
            if ignores(ignored, code) {
                return 0;
            }
            u64::from(found.get(usize::from(finding.rank())))
        }
        ReportCode::Warning(warning) => count_at(warned, warning.rank()),
    }
}

// How many warnings there are of the code of a rank.
fn count_at<A: Allocator>(warned: &[Warned<A>], rank: usize) -> u64
    ensures { result ≡ count_at warned.now rank }
{
    match warned.get(rank) {
        Some(one) => one.count() as u64,
        None => 0,
    }
}

// The sum of some counts, up to the greatest number of 64 bits.
fn total(counts: &[u64]) -> u64
    ensures { result ≡ min (sum counts.now) (2 ^ 64 - 1) }
{
    let mut sum: u64 = 0;
    'counts: for i in 0..counts.len() {
        sum = sum.saturating_add(counts[i]);
    }
    sum
}
