//! What makes a run fail.

ghost use Rattle.std.specs.Prelude.{◌↔◌, ◌⊎◌, IsTrue};
ghost use Rattle.level_codes.specs.declared.code.ReportCode.{ReportCode};
ghost use Rattle.lens_engines.specs.Failing.{HasEndingCode, HasEndingWarning, HasFailing, IsEndingCode, IsFailing};

use crate::counts::code_at;
use crate::judging::Judging;
use crate::report_counts::ReportCounts;
use crate::warned::Warned;
use level_codes::{CodeSet, REPORT_COUNT, ReportCode};
use map_level::Code;
use map_level::search::CODE_COUNT;
use std::alloc::Allocator;

/// Whether a finding or a warning is told of a level that is as grave as a fault.
pub fn has_failing<A: Allocator>(
    judging: &Judging<'_>,
    counts: &ReportCounts,
    warned: &[Warned<A>],
) -> bool
    ensures { IsTrue result ↔ HasFailing judging.now counts.now warned.now }
{
    if has_code(&judging.failing, counts) {
        return true;
    }
    if judging.game_ends {
        return has_ending(counts, warned);
    }
    false
}

// Whether the game ends at a finding or a warning that is told of a level.
fn has_ending<A: Allocator>(counts: &ReportCounts, warned: &[Warned<A>]) -> bool
    ensures { IsTrue result ↔ (HasEndingCode counts.now ⊎ HasEndingWarning warned.now) }
{
    if has_ending_code(counts) {
        return true;
    }
    has_ending_warning(warned)
}

// Whether a finding or a warning of these codes is told of a level.
fn has_code(failing: &CodeSet, counts: &ReportCounts) -> bool
    ensures { IsTrue result ↔ ((code : ReportCode) × IsFailing failing.now counts.now code) }
{
    for rank in 0..REPORT_COUNT {
        if is_failing(failing, counts, ReportCode::at(rank)) {
            return true;
        }
    }
    false
}

// Whether a code is one of these, and is told of a level.
fn is_failing(failing: &CodeSet, counts: &ReportCounts, code: ReportCode) -> bool
    ensures { IsTrue result ↔ IsFailing failing.now counts.now code }
{
    failing.has(code) && counts.get(code) > 0
}

// Whether the game ends at a finding that is told of a level.
fn has_ending_code(counts: &ReportCounts) -> bool
    ensures { IsTrue result ↔ HasEndingCode counts.now }
{
    for rank in 0..CODE_COUNT {
        if is_ending_code(counts, code_at(rank)) {
            return true;
        }
    }
    false
}

// Whether the game ends at a code of findings, and it is told of a level.
fn is_ending_code(counts: &ReportCounts, code: Code) -> bool
    ensures { IsTrue result ↔ IsEndingCode counts.now code }
{
    let code = ReportCode::Finding(code);
    code.ends_game() && counts.get(code) > 0
}

// Whether the game ends at a warning that is told of a level.
fn has_ending_warning<A: Allocator>(warned: &[Warned<A>]) -> bool
    ensures { IsTrue result ↔ HasEndingWarning warned.now }
{
    for i in 0..warned.len() {
        if warned[i].ends_game() {
            return true;
        }
    }
    false
}
