//! What is counted over levels, files and a run.

ghost use Rattle.std.specs.Prelude.{◌≡◌, [], false};
ghost use Rattle.line_io.specs.Writes.{Writes};
ghost use Rattle.std.specs.Prelude.{◌+◌, ◌≤◌, ◌++◌, length};
ghost use Rattle.lens_engines.specs.Totals.{format_totals, found_text, judged_totals, levels_text, partly_text, totals_line, warnings_text};
ghost use Rattle.lens_engines.specs.TotalsObject.{found_numbers, levels_members, partly_members, partly_number, totals_object, totals_text, warnings_number};

use crate::judging::Warnings;
use crate::object::write_last;
use crate::report_counts::ReportCounts;
use crate::unlisted::Unlisted;
use crate::unlooked::has_any;
use crate::verdict::Verdict;
use le_rec::Sink;
use lens_texts::{Form, Unread, prepend_number, write_both, write_number};
use level_codes::CodeSet;
use line_io::{IoFault, TextLine, emit};

/// How many levels there are, their faults, notes and warnings, and how many of the levels aren't judged. Each number stops at
/// the greatest of 64 bits.
#[derive(Clone, Copy, Debug, PartialEq, Eq)]
pub struct Totals {
    pub levels: u64,
    pub faults: u64,
    pub notes: u64,
    /// 0 where warnings aren't asked for.
    pub warnings: u64,
    /// Levels with a finding or a warning that is as grave as a fault.
    pub failing: u64,
    /// Levels that lack a lump, one of whose lumps isn't inside the file, or whose nodes are broken.
    pub broken: u64,
    /// Levels in a format that isn't read.
    pub unread: u64,
    /// Levels at which a warning that was asked for wasn't looked for.
    pub partly: u64,
    /// The warnings that were asked for but not looked for, at one or more of the levels.
    pub unlooked: CodeSet,
    /// Which of them as no file lists the names.
    pub unlisted: Unlisted,
}

/// The totals of a judged level, by how many there are of each code, whether one of them is as grave as a fault, and the warnings
/// that weren't looked for.
pub fn judged_totals(
    counts: &ReportCounts,
    fails: bool,
    unlooked: CodeSet,
    unlisted: Unlisted,
) -> Totals
    ensures { result ≡ judged_totals counts.now fails unlooked unlisted }
{
    Totals {
        levels: 1,
        faults: counts.faults(),
        notes: counts.notes(),
        warnings: counts.warnings(),
        failing: u64::from(fails),
        broken: 0,
        unread: 0,
        partly: u64::from(has_any(&unlooked)),
        unlooked,
        unlisted,
    }
}

/// The totals of a level that isn't judged.
pub fn format_totals(told: Unread) -> Totals
    ensures { result ≡ format_totals told }
{
    let (broken, unread) = match told {
        Unread::Incomplete(_) | Unread::Outside(_) | Unread::Extended(_, Some(_)) => (1, 0),
        Unread::Udmf | Unread::Hexen | Unread::Extended(_, None) => (0, 1),
    };
    Totals {
        levels: 1,
        faults: 0,
        notes: 0,
        warnings: 0,
        failing: 0,
        broken,
        unread,
        partly: 0,
        unlooked: CodeSet::none(),
        unlisted: Unlisted::none(),
    }
}

impl Totals {
    ghost use Rattle.lens_engines.specs.Totals.{no_totals, totals_with, verdict_of_totals};

    /// The totals of no level.
    pub fn none() -> Totals
        ensures { result ≡ no_totals }
    {
        Totals {
            levels: 0,
            faults: 0,
            notes: 0,
            warnings: 0,
            failing: 0,
            broken: 0,
            unread: 0,
            partly: 0,
            unlooked: CodeSet::none(),
            unlisted: Unlisted::none(),
        }
    }

    /// Both together.
    pub fn with(self, other: Totals) -> Totals
        ensures { result ≡ totals_with self other }
    {
        Totals {
            levels: self.levels.saturating_add(other.levels),
            faults: self.faults.saturating_add(other.faults),
            notes: self.notes.saturating_add(other.notes),
            warnings: self.warnings.saturating_add(other.warnings),
            failing: self.failing.saturating_add(other.failing),
            broken: self.broken.saturating_add(other.broken),
            unread: self.unread.saturating_add(other.unread),
            partly: self.partly.saturating_add(other.partly),
            unlooked: self.unlooked.with(other.unlooked),
            unlisted: self.unlisted.with(other.unlisted),
        }
    }

    /// The verdict by them. A fault, what is as grave, or a level that lacks a lump or has broken nodes goes before a
    /// level that isn't read.
    pub fn verdict(&self) -> Verdict
        ensures { result ≡ verdict_of_totals self.now }
    {
        if self.faults == 0 && self.failing == 0 && self.broken == 0 {
            if self.unread == 0 {
                Verdict::Clean
            } else {
                Verdict::Unjudged
            }
        } else {
            Verdict::Faulty
        }
    }
}

/// Writes the totals of so many files, with the warnings where they were asked for.
pub fn write_totals<W: Sink>(
    form: Form,
    files: u64,
    warnings: Warnings,
    totals: &Totals,
    out: &mut W,
) -> Result<(), IoFault>
    requires { (W.state out.old).failed ≡ false }
    ensures { Writes (W.state out.old) (W.state out.new) (totals_text form files warnings totals.now) result }
{
    match form {
        Form::Lines => write_totals_line(files, warnings, totals, out),
        Form::Objects => write_totals_object(files, warnings, totals, out),
    }
}

fn write_totals_object<W: Sink>(
    files: u64,
    warnings: Warnings,
    totals: &Totals,
    out: &mut W,
) -> Result<(), IoFault>
    requires { (W.state out.old).failed ≡ false }
    ensures { Writes (W.state out.old) (W.state out.new) (totals_object files warnings totals.now) result }
{
    write_numbers(files, warnings, totals, out)?;
    write_partly(totals.partly, &totals.unlooked, out)
}

// `[,"unlooked_levels":L,"unlooked":[<codes>]]}`
fn write_partly<W: Sink>(partly: u64, unlooked: &CodeSet, out: &mut W) -> Result<(), IoFault>
    requires { (W.state out.old).failed ≡ false }
    ensures { Writes (W.state out.old) (W.state out.new) (partly_members partly unlooked.now) result }
{
    write_partly_number(partly, out)?;
    write_last(unlooked, out)
}

// `,"unlooked_levels":L`, where there are some
fn write_partly_number<W: Sink>(partly: u64, out: &mut W) -> Result<(), IoFault>
    requires { (W.state out.old).failed ≡ false }
    ensures { Writes (W.state out.old) (W.state out.new) (partly_number partly) result }
{
    if partly > 0 {
        write_number(b"unlooked_levels", partly, out)
    } else {
        emit(out, b"")
    }
}

// The members that are numbers.
fn write_numbers<W: Sink>(
    files: u64,
    warnings: Warnings,
    totals: &Totals,
    out: &mut W,
) -> Result<(), IoFault>
    requires { (W.state out.old).failed ≡ false }
    ensures { Writes (W.state out.old) (W.state out.new)
        (levels_members files totals.now ++ found_numbers warnings totals.now) result }
{
    let mut levels = TextLine::new();
    prepend_number(&mut levels, b"files", files);
    levels.prepend_natural(totals.levels);
    levels.prepend_bytes(b"{\"levels\":");
    let mut found = TextLine::new();
    prepend_found_numbers(&mut found, warnings, totals);
    write_both(levels.as_bytes(), found.as_bytes(), out)
}

// `,"faults":F,"notes":K,["warnings":V,]"not_judged":U`
fn prepend_found_numbers(line: &mut TextLine, warnings: Warnings, totals: &Totals)
    requires { line.old ≡ [] }
    ensures { line.new ≡ found_numbers warnings totals.now }
{
    prepend_number(
        line,
        b"not_judged",
        totals.broken.saturating_add(totals.unread),
    );
    prepend_warnings_number(line, warnings, totals.warnings);
    prepend_number(line, b"notes", totals.notes);
    prepend_number(line, b"faults", totals.faults);
}

// `,"warnings":V`, where they were asked for
fn prepend_warnings_number(line: &mut TextLine, warnings: Warnings, count: u64)
    requires { length line.old ≤ 40 }
    ensures text { line.new ≡ warnings_number warnings count line.old }
    ensures length { length line.new ≤ length line.old + 32 }
{
    match warnings {
        Warnings::Unasked => {}
        Warnings::Told => prepend_number(line, b"warnings", count),
    }
}

fn write_totals_line<W: Sink>(
    files: u64,
    warnings: Warnings,
    totals: &Totals,
    out: &mut W,
) -> Result<(), IoFault>
    requires { (W.state out.old).failed ≡ false }
    ensures { Writes (W.state out.old) (W.state out.new) (totals_line files warnings totals.now) result }
{
    write_sums(files, warnings, totals, out)?;
    write_partly_line(totals.partly, out)
}

// `[, L with warnings not looked for]`, and the line's end.
fn write_partly_line<W: Sink>(partly: u64, out: &mut W) -> Result<(), IoFault>
    requires { (W.state out.old).failed ≡ false }
    ensures { Writes (W.state out.old) (W.state out.new) (partly_text partly) result }
{
    let mut line = TextLine::new();
    prepend_partly(&mut line, partly);
    emit(out, line.as_bytes())
}

// What is counted, without the line's end.
fn write_sums<W: Sink>(
    files: u64,
    warnings: Warnings,
    totals: &Totals,
    out: &mut W,
) -> Result<(), IoFault>
    requires { (W.state out.old).failed ≡ false }
    ensures { Writes (W.state out.old) (W.state out.new) (levels_text files totals.now ++ found_text warnings totals.now) result }
{
    let mut levels = TextLine::new();
    prepend_levels(&mut levels, files, totals);
    let mut found = TextLine::new();
    prepend_found(&mut found, warnings, totals);
    write_both(levels.as_bytes(), found.as_bytes(), out)
}

// `N levels in M files: `
fn prepend_levels(line: &mut TextLine, files: u64, totals: &Totals)
    requires { line.old ≡ [] }
    ensures { line.new ≡ levels_text files totals.now }
{
    line.prepend_bytes(b" files: ");
    line.prepend_natural(files);
    line.prepend_bytes(b" levels in ");
    line.prepend_natural(totals.levels);
}

// `F faults, K notes, [V warnings, ]U not judged`
fn prepend_found(line: &mut TextLine, warnings: Warnings, totals: &Totals)
    requires { line.old ≡ [] }
    ensures { line.new ≡ found_text warnings totals.now }
{
    line.prepend_bytes(b" not judged");
    line.prepend_natural(totals.broken.saturating_add(totals.unread));
    prepend_warnings(line, warnings, totals.warnings);
    line.prepend_bytes(b" notes, ");
    line.prepend_natural(totals.notes);
    line.prepend_bytes(b" faults, ");
    line.prepend_natural(totals.faults);
}

// The text of that.
fn prepend_partly(line: &mut TextLine, partly: u64)
    requires { line.old ≡ [] }
    ensures { line.new ≡ partly_text partly }
{
    line.prepend_bytes(b"\n");
    if partly > 0 {
        line.prepend_bytes(b" with warnings not looked for");
        line.prepend_natural(partly);
        line.prepend_bytes(b", ");
    }
}

// `V warnings, `, where they were asked for
fn prepend_warnings(line: &mut TextLine, warnings: Warnings, count: u64)
    requires { length line.old ≤ 40 }
    ensures text { line.new ≡ warnings_text warnings count line.old }
    ensures length { length line.new ≤ length line.old + 31 }
{
    match warnings {
        Warnings::Unasked => {}
        Warnings::Told => {
            line.prepend_bytes(b" warnings, ");
            line.prepend_natural(count);
        }
    }
}
