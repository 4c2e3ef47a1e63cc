//! The report on a level's warnings.

ghost use Rattle.std.specs.Prelude.{◌≡◌, ◌↔◌, ◌-◌, ◌<◌, IfOk, IsTrue, OnOk, false, length};
ghost use Rattle.std.specs.List.{flat_map};
ghost use Rattle.line_io.specs.Writes.{Writes};
ghost use Rattle.map_audit.specs.Findings.{AuditHolds};
ghost use Rattle.map_tree.specs.Sound.{IsSound};
ghost use Rattle.map_warnings.specs.References.{HasReferences};
ghost use Rattle.map_warnings.specs.Warnings.{Tells};
ghost use Rattle.lens_engines.specs.Counts.{AreCounts};
ghost use Rattle.lens_engines.specs.Ignored.{WarnsUnlessIgnored};
ghost use Rattle.lens_texts.specs.Owners.{AreOwners};
ghost use Rattle.lens_texts.specs.declared.remark.Remark.TheVariants as remark;
ghost use Rattle.lens_engines.specs.Warned.{AddsWarned, AreAskedFor, AreWarned, EndsUnlessIgnored, where_asked};
ghost use Rattle.lens_engines.specs.WarnedText.{more_text, warned_part, warned_text};

use crate::counts::CodeCounts;
use crate::ignored::ignores;
use crate::judging::{Judging, Warnings};
use le_rec::Sink;
use lens_texts::{Remark, WriteRemarks};
use level_codes::{CodeSet, REPORT_COUNT, ReportCode, WarningCode};
use line_io::IoFault;
use map_level::Level;
use map_level::search::CODE_COUNT;
use map_warnings::{Checks, Resources, Told, Warning};
use std::alloc::{AllocError, Allocator, Global};
use std::marker::Model;
use wad_dir::Set;

/// The report on one code of warnings: the first of them, how many there are, and whether the released game ends at one.
#[derive(Debug, Drop)]
pub struct Warned<A: Allocator = Global> {
    code: WarningCode,
    told: Told<A>,
    ends: bool,
}

impl<A: Allocator> Model for Warned<A> {
    ghost use Rattle.lens_engines.specs.Warned as warned;

    ghost Value = { warned.Warned };

    ghost view = { λ w. record { code = w.code; cut = w.told; ends = w.ends } };
}

impl<A: Allocator> Warned<A> {
    ghost use Rattle.std.specs.Prelude.{◌≡◌};

    /// The code.
    pub fn code(&self) -> WarningCode
        ensures { result ≡ self.now.code }
    {
        self.code
    }

    /// How many there are.
    pub fn count(&self) -> usize
        ensures { result ≡ self.now.cut.count }
    {
        self.told.count()
    }

    /// Whether the released game ends at one of them.
    pub fn ends_game(&self) -> bool
        ensures { result ≡ self.now.ends }
    {
        self.ends
    }
}

/// The textures and the flats of a set of files, where warnings are looked for. They are looked through once for all levels.
pub fn asked_resources<'s, 'a, A: Allocator + Copy>(
    alloc: A,
    set: &'s Set<'a, A>,
    warnings: Warnings,
) -> Result<Option<Resources<'s, 'a, A>>, AllocError>
    ensures { IfOk result (λ resources. resources ≡ where_asked warnings set.now) }
{
    match warnings {
        Warnings::Unasked => Ok(None),
        Warnings::Told => {
            let resources = Resources::of(alloc, set)?;
            Ok(Some(resources))
        }
    }
}

/// The report on a level's warnings, with at most so many of one code, by how often each code of findings holds of the level. It
/// is empty if warnings aren't looked for.
pub(crate) fn known_warnings<A: Allocator + Copy>(
    alloc: A,
    level: &Level<'_>,
    resources: &Option<Resources<'_, '_, A>>,
    counts: &CodeCounts,
    most: usize,
    judging: Judging<'_>,
) -> Result<Vec<Warned<A>, A>, AllocError>
    requires { AreCounts (AuditHolds level.now) counts.now }
    ensures { IfOk result (λ all. AreAskedFor judging.entry resources.now level.now most all.items) }
{
    match judging.warnings {
        Warnings::Unasked => Ok(Vec::new(alloc)),
        Warnings::Told => {
            counted_warnings(alloc, level, resources, counts, &judging.ignored, most)
        }
    }
}

// The report on each code of a level's warnings, with at most so many of one code, and none of an ignored one.
fn counted_warnings<A: Allocator + Copy>(
    alloc: A,
    level: &Level<'_>,
    resources: &Option<Resources<'_, '_, A>>,
    counts: &CodeCounts,
    ignored: &CodeSet,
    most: usize,
) -> Result<Vec<Warned<A>, A>, AllocError>
    requires { AreCounts (AuditHolds level.now) counts.now }
    ensures { IfOk result (λ all. AreWarned ignored.now resources.now level.now most all.items) }
{
    let checks = counted_checks(level, counts);
    let all = warned_by(alloc, &checks, resources, ignored, most)?;
    Ok(all)
}

// The checks for a level's warnings, by the counts of its findings: it isn't looked over again.
fn counted_checks<'l, 'a>(level: &'l Level<'a>, counts: &CodeCounts) -> Checks<'l, 'a>
    requires { AreCounts (AuditHolds level.now) counts.now }
    ensures { result ≡ level.now }
{
    Checks::known(
        level,
        have_references(level, counts),
        is_faultless(level, counts),
    )
}

/// Whether the references of a level hold, by its counts: there is no fault F3 to F9.
pub(crate) fn have_references(level: &Level<'_>, counts: &CodeCounts) -> bool
    requires { AreCounts (AuditHolds level.now) counts.now }
    ensures { IsTrue result ↔ HasReferences level.now }
{
    // Only the clauses speak of the level.
    let _level = level;
    for rank in 2..9 {
        if counts.get(rank) > 0 {
            return false;
        }
    }
    true
}

/// Whether a level has no fault, by its counts.
pub(crate) fn is_faultless(level: &Level<'_>, counts: &CodeCounts) -> bool
    requires { AreCounts (AuditHolds level.now) counts.now }
    ensures { IsTrue result ↔ IsSound level.now }
{
    // Only the clauses speak of the level.
    let _level = level;
    counts.faults() == 0
}

// The report on each code, with at most so many of one code.
fn warned_by<A: Allocator + Copy>(
    alloc: A,
    checks: &Checks<'_, '_>,
    resources: &Option<Resources<'_, '_, A>>,
    ignored: &CodeSet,
    most: usize,
) -> Result<Vec<Warned<A>, A>, AllocError>
    ensures { IfOk result (λ all. AreWarned ignored.now resources.now checks.now most all.items) }
{
    let mut all = Vec::new(alloc);
    'codes: for rank in CODE_COUNT..REPORT_COUNT {
        if let ReportCode::Warning(code) = ReportCode::at(rank) {
            push_code(alloc, checks, resources, ignored, code, most, &mut all)?;
        }
    }
    Ok(all)
}

// Adds the report on a code.
fn push_code<A: Allocator + Copy>(
    alloc: A,
    checks: &Checks<'_, '_>,
    resources: &Option<Resources<'_, '_, A>>,
    ignored: &CodeSet,
    code: WarningCode,
    most: usize,
    all: &mut Vec<Warned<A>, A>,
) -> Result<(), AllocError>
    ensures { OnOk result (AddsWarned ignored.now resources.now checks.now most code all.old.items all.new.items) }
{
    let told = told_of(alloc, checks, resources, ignored, code, most)?;
    let ends = ends_at(alloc, checks, resources, ignored, code, told.count())?;
    all.push(Warned { code, told, ends })?;
    Ok(())
}

// Whether the game ends at a warning of a code, of which so many are told.
fn ends_at<A: Allocator + Copy>(
    alloc: A,
    checks: &Checks<'_, '_>,
    resources: &Option<Resources<'_, '_, A>>,
    ignored: &CodeSet,
    code: WarningCode,
    count: usize,
) -> Result<bool, AllocError>
    requires { (0 < count) ↔ ((w : Warning) × WarnsUnlessIgnored ignored.now resources.now checks.now code w) }
    ensures { IfOk result (λ ends. IsTrue ends ↔ ((w : Warning) × EndsUnlessIgnored ignored.now resources.now checks.now code w)) }
{
    // Only the clauses speak of what is ignored.
    let _ignored = ignored;
    if count == 0 {
        return Ok(false);
    }
    match code {
        // It ends at some of W22 alone.
        WarningCode::W22 => checks.ends_game(alloc, code, resources),
        _ => Ok(ReportCode::Warning(code).ends_game()),
    }
}

// The warnings of a code, at most so many; none if it is ignored.
fn told_of<A: Allocator + Copy>(
    alloc: A,
    checks: &Checks<'_, '_>,
    resources: &Option<Resources<'_, '_, A>>,
    ignored: &CodeSet,
    code: WarningCode,
    most: usize,
) -> Result<Told<A>, AllocError>
    ensures told { IfOk result (λ told. Tells (WarnsUnlessIgnored ignored.now resources.now checks.now code) told) }
    ensures most { IfOk result (λ told. told.most ≡ most) }
{
    if ignores(ignored, ReportCode::Warning(code)) {
        return Ok(Told::new(alloc, most));
    }
    checks.told(alloc, code, resources, most)
}

/// Writes a level's warnings in some form. `owners` has the linedefs of its sidedefs.
pub(crate) fn write_warned<A: Allocator, F: WriteRemarks, W: Sink>(
    level: &Level<'_>,
    owners: &[Option<u32>],
    form: &F,
    all: &[Warned<A>],
    out: &mut W,
) -> Result<(), IoFault>
    requires owners { AreOwners level.now owners.now }
    requires sound { (W.state out.old).failed ≡ false }
    ensures { Writes (W.state out.old) (W.state out.new)
        (warned_text (F.text form.now level.now) (F.left form.now) all.now) result }
{
    'codes: for i in 0..all.len() {
        write_part(level, owners, form, &all[i], out)?;
    }
    Ok(())
}

// Writes a code's warnings.
fn write_part<A: Allocator, F: WriteRemarks, W: Sink>(
    level: &Level<'_>,
    owners: &[Option<u32>],
    form: &F,
    warned: &Warned<A>,
    out: &mut W,
) -> Result<(), IoFault>
    requires owners { AreOwners level.now owners.now }
    requires sound { (W.state out.old).failed ≡ false }
    ensures { Writes (W.state out.old) (W.state out.new)
        (warned_part (F.text form.now level.now) (F.left form.now) warned.now) result }
{
    let first = warned.told.first();
    write_first(level, owners, form, first, out)?;
    let left = warned.told.count().saturating_sub(first.len());
    write_more(form, ReportCode::Warning(warned.code), left as u64, out)
}

// Writes some warnings.
fn write_first<F: WriteRemarks, W: Sink>(
    level: &Level<'_>,
    owners: &[Option<u32>],
    form: &F,
    first: &[Warning],
    out: &mut W,
) -> Result<(), IoFault>
    requires owners { AreOwners level.now owners.now }
    requires sound { (W.state out.old).failed ≡ false }
    ensures { Writes (W.state out.old) (W.state out.new)
        (flat_map (λ w. F.text form.now level.now (remark.Warning w)) first.now) result }
{
    'first: for i in 0..first.len() {
        write_one(level, owners, form, first[i], out)?;
    }
    Ok(())
}

// Writes a warning.
fn write_one<F: WriteRemarks, W: Sink>(
    level: &Level<'_>,
    owners: &[Option<u32>],
    form: &F,
    warning: Warning,
    out: &mut W,
) -> Result<(), IoFault>
    requires owners { AreOwners level.now owners.now }
    requires sound { (W.state out.old).failed ≡ false }
    ensures { Writes (W.state out.old) (W.state out.new) (F.text form.now level.now (remark.Warning warning)) result }
{
    form.write_remark(level, owners, Remark::Warning(warning), out)
}

/// Writes how many remarks of a code are left out, where some are.
pub(crate) fn write_more<F: WriteRemarks, W: Sink>(
    form: &F,
    code: ReportCode,
    left: u64,
    out: &mut W,
) -> Result<(), IoFault>
    requires { (W.state out.old).failed ≡ false }
    ensures { Writes (W.state out.old) (W.state out.new) (more_text (F.left form.now) code left) result }
{
    if left == 0 {
        return Ok(());
    }
    form.write_left(code, left, out)
}
