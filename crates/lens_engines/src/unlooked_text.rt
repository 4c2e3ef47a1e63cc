//! The line, or the object, that tells which warnings weren't looked for at a level.

ghost use Rattle.std.specs.Prelude.{◌≡◌, false};
ghost use Rattle.line_io.specs.Writes.{Writes};
ghost use Rattle.lens_texts.specs.Head.{head_of};
ghost use Rattle.lens_texts.specs.RemarkLine.{level_line};
ghost use Rattle.lens_engines.specs.UnlookedText.{cause_text, causes_text, held, told_unlooked, unlooked_object, unlooked_part, unsound_codes};

use crate::object::write_last;
use crate::report_counts::ReportCounts;
use crate::unlooked::{has_any, write_names};
use le_rec::Sink;
use lens_texts::{Form, Heading, write_front, write_heading};
use level_codes::{CodeSet, Offer, ReportCode};
use line_io::{IoFault, emit};
use map_level::Code;

/// Writes which warnings weren't looked for at a level, and for which faults, by how many there are of each code.
pub(crate) fn write_unlooked_part<W: Sink>(
    heading: &Heading<'_>,
    counts: &ReportCounts,
    unlooked: &CodeSet,
    out: &mut W,
) -> Result<(), IoFault>
    requires { (W.state out.old).failed ≡ false }
    ensures { Writes (W.state out.old) (W.state out.new) (unlooked_part (head_of heading.now) counts.now unlooked.now) result }
{
    let references = held(Code::F3, Code::F9, counts);
    if has_any(&references) {
        if has_any(unlooked) {
            return write_told(heading, unlooked, &CodeSet::none(), &references, out);
        }
        return emit(out, b"");
    }
    let unsound = unsound_codes(unlooked);
    if has_any(&unsound) {
        let faults = held(Code::F1, Code::F18, counts);
        return write_told(heading, unlooked, &unsound, &faults, out);
    }
    emit(out, b"")
}

// The codes of findings from one to another that hold.
fn held(first: Code, last: Code, counts: &ReportCounts) -> CodeSet
    ensures { result ≡ held first last counts.now }
{
    let between = CodeSet::between(ReportCode::Finding(first), ReportCode::Finding(last));
    counts.told().common(between)
}

// Those codes that want a sound level.
fn unsound_codes(unlooked: &CodeSet) -> CodeSet
    ensures { result ≡ unsound_codes unlooked.now }
{
    let unsound = CodeSet::unmet(Offer {
        references: true,
        soundness: false,
        textures: true,
        flats: true,
        flat_ends: true,
    });
    unsound.common(*unlooked)
}

// Writes it in the form that is asked for.
fn write_told<W: Sink>(
    heading: &Heading<'_>,
    unlooked: &CodeSet,
    named: &CodeSet,
    causes: &CodeSet,
    out: &mut W,
) -> Result<(), IoFault>
    requires { (W.state out.old).failed ≡ false }
    ensures { Writes (W.state out.old) (W.state out.new) (told_unlooked (head_of heading.now) unlooked.now named.now causes.now) result }
{
    match heading.form {
        Form::Lines => write_line(heading, named, causes, out),
        Form::Objects => write_object(heading, unlooked, out),
    }
}

fn write_line<W: Sink>(
    heading: &Heading<'_>,
    named: &CodeSet,
    causes: &CodeSet,
    out: &mut W,
) -> Result<(), IoFault>
    requires { (W.state out.old).failed ≡ false }
    ensures { Writes (W.state out.old) (W.state out.new)
        (level_line heading.now.path.now heading.now.label (cause_text named.now causes.now)) result }
{
    write_heading(heading, out)?;
    write_cause(named, causes, out)
}

// `warnings[ <codes>] not looked for: <codes>`
fn write_cause<W: Sink>(named: &CodeSet, causes: &CodeSet, out: &mut W) -> Result<(), IoFault>
    requires { (W.state out.old).failed ≡ false }
    ensures { Writes (W.state out.old) (W.state out.new) (cause_text named.now causes.now) result }
{
    emit(out, b"warnings")?;
    write_names(named, b" ", b"", out)?;
    write_causes(causes, out)
}

// ` not looked for: <codes>`
fn write_causes<W: Sink>(causes: &CodeSet, out: &mut W) -> Result<(), IoFault>
    requires { (W.state out.old).failed ≡ false }
    ensures { Writes (W.state out.old) (W.state out.new) (causes_text causes.now) result }
{
    emit(out, b" not looked for:")?;
    write_names(causes, b" ", b"", out)?;
    emit(out, b"\n")
}

fn write_object<W: Sink>(
    heading: &Heading<'_>,
    unlooked: &CodeSet,
    out: &mut W,
) -> Result<(), IoFault>
    requires { (W.state out.old).failed ≡ false }
    ensures { Writes (W.state out.old) (W.state out.new) (unlooked_object (head_of heading.now) unlooked.now) result }
{
    write_front(heading, out)?;
    write_last(unlooked, out)
}
