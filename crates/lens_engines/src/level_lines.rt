//! The lines of a level.

ghost use Rattle.std.specs.Prelude.{◌≡◌, ◌-◌, ◌<◌, ◌≤◌, ◌++◌, ℕ, List, false, length, take};
ghost use Rattle.line_io.specs.Writes.{EndsWriting, Writes};
ghost use Rattle.map_audit.specs.Findings.{AuditHolds};
ghost use Rattle.lens_texts.specs.Head.{head_of};
ghost use Rattle.lens_engines.specs.LevelLines.{AreCounted, AreIndexes, AreShown, code_lines, code_part, findings_part, found_text, judged_text, remarks_text};
ghost use Rattle.lens_engines.specs.LevelLines.{wide_part};
ghost use Rattle.lens_texts.specs.declared.remark.Remark.TheVariants as remark;
ghost use Rattle.lens_texts.specs.Owners.{AreOwners};
ghost use Rattle.lens_engines.specs.UnlookedText.{unlooked_part};
ghost use Rattle.map_level.specs.declared.finding.Code.{Code};

use crate::counts::code_at;
use crate::judged::Judged;
use crate::unlooked_text::write_unlooked_part;
use crate::warned::{write_more, write_warned};
use le_rec::Sink;
use lens_texts::{
    Form, Heading, Remark, WriteRemarks, write_line, write_unbuilt, write_wide_object,
};
use level_codes::ReportCode;
use line_io::IoFault;
use map_level::search::CODE_COUNT;
use map_level::{Code, Finding};
use std::alloc::Allocator;

/// Writes the lines of a judged level: that its nodes weren't built, where they weren't, its findings, its warnings, those that
/// weren't looked for, and that the wide reading alone finds it sound, where it does. `owners` has the linedefs of its sidedefs.
pub fn write_judged<A: Allocator, W: Sink>(
    judged: &Judged<'_, '_, A>,
    owners: &[Option<u32>],
    heading: &Heading<'_>,
    most: u64,
    sound_wide: bool,
    out: &mut W,
) -> Result<(), IoFault>
    requires owners { AreOwners judged.now.level owners.now }
    requires sound { (W.state out.old).failed ≡ false }
    ensures ends { EndsWriting (W.state out.new) result }
    ensures text { (told : Code → List ℕ) → AreShown (AuditHolds judged.now.level) told → AreCounted judged.now.counts told
        → Writes (W.state out.old) (W.state out.new)
        (judged_text (head_of heading.now) most judged.now told sound_wide) result }
{
    write_unbuilt(heading, judged.level(), out)?;
    write_remarks(judged, owners, heading, most, sound_wide, out)
}

// Writes what is told of a level.
fn write_remarks<A: Allocator, W: Sink>(
    judged: &Judged<'_, '_, A>,
    owners: &[Option<u32>],
    heading: &Heading<'_>,
    most: u64,
    sound_wide: bool,
    out: &mut W,
) -> Result<(), IoFault>
    requires owners { AreOwners judged.now.level owners.now }
    requires sound { (W.state out.old).failed ≡ false }
    ensures ends { EndsWriting (W.state out.new) result }
    ensures text { (told : Code → List ℕ) → AreShown (AuditHolds judged.now.level) told → AreCounted judged.now.counts told
        → Writes (W.state out.old) (W.state out.new)
        (remarks_text (head_of heading.now) most judged.now told sound_wide) result }
{
    write_found(judged, owners, heading, most, out)?;
    write_rest(judged, heading, sound_wide, out)
}

/// Writes what is found at a level in some form: its findings, at most so many of one code, and then its warnings, as many of one
/// code as were kept. `owners` has the linedefs of its sidedefs.
pub fn write_found<A: Allocator, F: WriteRemarks, W: Sink>(
    judged: &Judged<'_, '_, A>,
    owners: &[Option<u32>],
    form: &F,
    most: u64,
    out: &mut W,
) -> Result<(), IoFault>
    requires owners { AreOwners judged.now.level owners.now }
    requires sound { (W.state out.old).failed ≡ false }
    ensures ends { EndsWriting (W.state out.new) result }
    ensures text { (told : Code → List ℕ) → AreShown (AuditHolds judged.now.level) told → AreCounted judged.now.counts told
        → Writes (W.state out.old) (W.state out.new)
        (found_text (F.text form.now judged.now.level) (F.left form.now) most told judged.now.warned) result }
{
    write_codes(judged, owners, form, most, out)?;
    write_warned(judged.level(), owners, form, judged.warned(), out)
}

// Writes what comes after what is found at a level.
fn write_rest<A: Allocator, W: Sink>(
    judged: &Judged<'_, '_, A>,
    heading: &Heading<'_>,
    sound_wide: bool,
    out: &mut W,
) -> Result<(), IoFault>
    requires { (W.state out.old).failed ≡ false }
    ensures { Writes (W.state out.old) (W.state out.new)
        (unlooked_part (head_of heading.now) judged.now.counts judged.now.unlooked ++ wide_part (head_of heading.now) sound_wide) result }
{
    write_unlooked_part(heading, judged.counts(), &judged.unlooked(), out)?;
    write_wide(heading, sound_wide, out)
}

// Writes that only the wide reading finds the level sound, if that is so.
fn write_wide<W: Sink>(heading: &Heading<'_>, sound_wide: bool, out: &mut W) -> Result<(), IoFault>
    requires { (W.state out.old).failed ≡ false }
    ensures { Writes (W.state out.old) (W.state out.new)
        (wide_part (head_of heading.now) sound_wide) result }
{
    if !sound_wide {
        return Ok(());
    }
    match heading.form {
        Form::Lines => write_line(heading, b"sound with --wide\n", out),
        Form::Objects => write_wide_object(heading, out),
    }
}

// Writes the report on all codes of findings.
fn write_codes<A: Allocator, F: WriteRemarks, W: Sink>(
    judged: &Judged<'_, '_, A>,
    owners: &[Option<u32>],
    form: &F,
    most: u64,
    out: &mut W,
) -> Result<(), IoFault>
    requires owners { AreOwners judged.now.level owners.now }
    requires sound { (W.state out.old).failed ≡ false }
    ensures ends { EndsWriting (W.state out.new) result }
    ensures text { (told : Code → List ℕ) → AreShown (AuditHolds judged.now.level) told → AreCounted judged.now.counts told
        → Writes (W.state out.old) (W.state out.new)
        (findings_part (F.text form.now judged.now.level) (F.left form.now) most told) result }
{
    let counts = judged.counts();
    'codes: for i in 0..CODE_COUNT {
        let code = code_at(i);
        let count = counts.get(ReportCode::Finding(code));
        write_code(judged, owners, form, most, code, count, out)?;
    }
    Ok(())
}

// Writes the report on a code that holds `count` times.
fn write_code<A: Allocator, F: WriteRemarks, W: Sink>(
    judged: &Judged<'_, '_, A>,
    owners: &[Option<u32>],
    form: &F,
    most: u64,
    code: Code,
    count: u64,
    out: &mut W,
) -> Result<(), IoFault>
    requires owners { AreOwners judged.now.level owners.now }
    requires sound { (W.state out.old).failed ≡ false }
    ensures ends { EndsWriting (W.state out.new) result }
    ensures text { (indexes : List ℕ) → (0 < count → AreIndexes (AuditHolds judged.now.level code) indexes) → length indexes ≡ count
        → Writes (W.state out.old) (W.state out.new)
        (code_part (F.text form.now judged.now.level) (F.left form.now) most code indexes) result }
{
    if count == 0 {
        return Ok(());
    }
    let shown = most.min(count);
    write_shown(judged, owners, form, code, shown, out)?;
    write_more(form, ReportCode::Finding(code), count - shown, out)
}

// Writes a code's first `shown` findings.
fn write_shown<A: Allocator, F: WriteRemarks, W: Sink>(
    judged: &Judged<'_, '_, A>,
    owners: &[Option<u32>],
    form: &F,
    code: Code,
    shown: u64,
    out: &mut W,
) -> Result<(), IoFault>
    requires owners { AreOwners judged.now.level owners.now }
    requires sound { (W.state out.old).failed ≡ false }
    ensures ends { EndsWriting (W.state out.new) result }
    ensures text { (indexes : List ℕ) → AreIndexes (AuditHolds judged.now.level code) indexes
        → Writes (W.state out.old) (W.state out.new)
        (code_lines (F.text form.now judged.now.level) code (take shown indexes)) result }
{
    let mut from = 0;
    let mut left = shown;
    'shown: while left > 0 {
        let Some(index) = judged.first(code, from) else {
            break;
        };
        write_finding(judged, owners, form, Finding { code, index }, out)?;
        from = index + 1;
        left -= 1;
    }
    Ok(())
}

// Writes a finding.
fn write_finding<A: Allocator, F: WriteRemarks, W: Sink>(
    judged: &Judged<'_, '_, A>,
    owners: &[Option<u32>],
    form: &F,
    finding: Finding,
    out: &mut W,
) -> Result<(), IoFault>
    requires owners { AreOwners judged.now.level owners.now }
    requires sound { (W.state out.old).failed ≡ false }
    ensures { Writes (W.state out.old) (W.state out.new)
        (F.text form.now judged.now.level (remark.Finding finding)) result }
{
    form.write_remark(judged.level(), owners, Remark::Finding(finding), out)
}
