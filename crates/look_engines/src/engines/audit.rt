//! The command `audit`: the faults and notes of a level.

ghost use Rattle.std.specs.Prelude.{◌≡◌, ◌≤◌, ◌++◌, [], false, length, map, IfOk, IfErr};
ghost use Rattle.std.specs.List.{flat_map};
ghost use Rattle.line_io.specs.Writes.{Writes};
ghost use Rattle.wad_dir.specs.declared.set.TheConstants.{MAX_FILES};
ghost use Rattle.look_engines.specs.Engines.Audit.{AreAuditFindings, RefusesAuditing, RunsAudit, TellsFindings};
ghost use Rattle.look_engines.specs.Engines.Audit.{code_name, finding_line, findings_of, meaning, totals_line};

use crate::fault::{RunFault, ended};
use crate::opening::open_set;
use le_rec::{Name8, Sink};
use line_io::{IoFault, TextLine, emit};
use map_audit::{Report, audit};
use map_level::{Code, Finding, Level, LevelFault, Reading};
use std::alloc::Allocator;
use wad_dir::AsBytes;

/// The report on the level of a name, or which of its lumps isn't there or isn't inside its file.
#[derive(Drop)]
enum Audited<A: Allocator> {
    Whole(Report<A>),
    Missing(u32),
    Outside(u32),
}

/// Writes a line for each finding on the level of the name, faults and then notes, and then how many there are of both.
/// The result is true if there is no fault. A lump that isn't there or isn't inside its file is the only finding, `F1`
/// or `F2`.
///
/// `Set`, `Memory`, and `Level` if no entry has the name, come before anything is written.
pub fn audit_text<A: Allocator + Copy, F: AsBytes, W: Sink>(
    alloc: A,
    files: &[F],
    name: &[u8],
    reading: Reading,
    out: &mut W,
) -> Result<bool, RunFault>
    requires few { length files.now ≤ MAX_FILES }
    requires sound { (W.state out.old).failed ≡ false }
    ensures { RunsAudit W.state (map F.bytes files.now) name.now reading out.old out.new result }
{
    let audited = findings_on_name(alloc, files, name, reading)?;
    ended(write_audited(&audited, out))
}

// The findings on the level of the name.
fn findings_on_name<A: Allocator + Copy, F: AsBytes>(
    alloc: A,
    files: &[F],
    name: &[u8],
    reading: Reading,
) -> Result<Audited<A>, RunFault>
    requires { length files.now ≤ MAX_FILES }
    ensures ok { IfOk result (λ found. AreAuditFindings (map F.bytes files.now) name.now reading (findings_of found)) }
    ensures err { IfErr result (RefusesAuditing (map F.bytes files.now) name.now) }
{
    let set = open_set(alloc, files)?;
    match Level::open(&set, Name8::query(name), reading) {
        Ok(level) => match audit(alloc, &level) {
            Ok(report) => Ok(Audited::Whole(report)),
            Err(_) => Err(RunFault::Memory),
        },
        Err(LevelFault::NoLabel) => Err(RunFault::Level(LevelFault::NoLabel)),
        Err(LevelFault::Missing(k)) => Ok(Audited::Missing(k)),
        Err(LevelFault::Outside(k)) => Ok(Audited::Outside(k)),
    }
}

// Writes the findings and their totals, and returns whether there is no fault.
fn write_audited<A: Allocator, W: Sink>(audited: &Audited<A>, out: &mut W) -> Result<bool, IoFault>
    requires { (W.state out.old).failed ≡ false }
    ensures { TellsFindings (W.state out.old) (W.state out.new) (findings_of audited.now) result }
{
    match audited {
        Audited::Whole(report) => write_report(report, out),
        Audited::Missing(k) => write_lone(Code::F1, *k, out),
        Audited::Outside(k) => write_lone(Code::F2, *k, out),
    }
}

// Writes a report and its totals.
fn write_report<A: Allocator, W: Sink>(report: &Report<A>, out: &mut W) -> Result<bool, IoFault>
    requires { (W.state out.old).failed ≡ false }
    ensures { TellsFindings (W.state out.old) (W.state out.new) report.now result }
{
    write_findings(report, out)?;
    let faults = report.faults();
    write_totals(faults, report.notes(), out)?;
    Ok(faults == 0)
}

// Writes a fault that is the only finding.
fn write_lone<W: Sink>(code: Code, index: u32, out: &mut W) -> Result<bool, IoFault>
    requires sound { (W.state out.old).failed ≡ false }
    ensures writes { Writes (W.state out.old) (W.state out.new)
        (finding_line (record { code = code; index = index }) ++ totals_line 1 0) result }
    ensures fault { IfOk result (λ none. none ≡ false) }
{
    write_finding(&Finding { code, index }, out)?;
    write_totals(1, 0, out)?;
    Ok(false)
}

// Writes the lines of findings.
fn write_findings<A: Allocator, W: Sink>(report: &Report<A>, out: &mut W) -> Result<(), IoFault>
    requires { (W.state out.old).failed ≡ false }
    ensures { Writes (W.state out.old) (W.state out.new) (flat_map finding_line report.now) result }
{
    'findings: for i in 0..report.len() {
        let Some(finding) = report.get(i) else { break };
        write_finding(&finding, out)?;
    }
    Ok(())
}

// Writes the line of a finding.
fn write_finding<W: Sink>(finding: &Finding, out: &mut W) -> Result<(), IoFault>
    requires { (W.state out.old).failed ≡ false }
    ensures { Writes (W.state out.old) (W.state out.new) (finding_line finding.now) result }
{
    let mut line = TextLine::new();
    prepend_finding(&mut line, finding);
    emit(out, line.as_bytes())
}

/// Puts a finding's line, `<code> <index> <text>` and its end, into an empty line.
pub fn prepend_finding(line: &mut TextLine, finding: &Finding)
    requires { line.old ≡ [] }
    ensures { line.new ≡ finding_line finding.now }
{
    line.prepend_bytes(b"\n");
    line.prepend_bytes(meaning(finding.code));
    line.prepend_bytes(b" ");
    line.prepend_natural(u64::from(finding.index));
    line.prepend_bytes(b" ");
    line.prepend_bytes(code_name(finding.code));
}

// Writes the line of the totals.
fn write_totals<W: Sink>(faults: usize, notes: usize, out: &mut W) -> Result<(), IoFault>
    requires { (W.state out.old).failed ≡ false }
    ensures { Writes (W.state out.old) (W.state out.new) (totals_line faults notes) result }
{
    let mut line = TextLine::new();
    prepend_totals(&mut line, faults, notes);
    emit(out, line.as_bytes())
}

/// Puts the line of a report's totals, `faults <n> notes <m>` and its end, into an empty line.
pub fn prepend_totals(line: &mut TextLine, faults: usize, notes: usize)
    requires { line.old ≡ [] }
    ensures { line.new ≡ totals_line faults notes }
{
    line.prepend_bytes(b"\n");
    line.prepend_natural(notes as u64);
    line.prepend_bytes(b" notes ");
    line.prepend_natural(faults as u64);
    line.prepend_bytes(b"faults ");
}

// A code as it is printed.
fn code_name(code: Code) -> &'static [u8]
    ensures name { result.now ≡ code_name code }
    ensures short { length result.now ≤ 3 }
{
    match code {
        Code::F1 => b"F1",
        Code::F2 => b"F2",
        Code::F3 => b"F3",
        Code::F4 => b"F4",
        Code::F5 => b"F5",
        Code::F6 => b"F6",
        Code::F7 => b"F7",
        Code::F8 => b"F8",
        Code::F9 => b"F9",
        Code::F10 => b"F10",
        Code::F11 => b"F11",
        Code::F12 => b"F12",
        Code::F13 => b"F13",
        Code::F14 => b"F14",
        Code::F15 => b"F15",
        Code::F16 => b"F16",
        Code::F17 => b"F17",
        Code::F18 => b"F18",
        Code::N1 => b"N1",
        Code::N2 => b"N2",
        Code::N3 => b"N3",
        Code::N4 => b"N4",
        Code::N5 => b"N5",
        Code::N6 => b"N6",
        Code::N7 => b"N7",
        Code::N8 => b"N8",
        Code::N9 => b"N9",
        Code::N10 => b"N10",
        Code::N11 => b"N11",
        Code::N12 => b"N12",
    }
}

// What a code says.
fn meaning(code: Code) -> &'static [u8]
    ensures text { result.now ≡ meaning code }
    ensures short { length result.now ≤ 32 }
{
    match code {
        Code::F1 => b"lump missing after the label",
        Code::F2 => b"lump outside its file",
        Code::F3 => b"linedef vertex names none",
        Code::F4 => b"linedef side names none",
        Code::F5 => b"sidedef sector names none",
        Code::F6 => b"seg vertex names none",
        Code::F7 => b"seg linedef names none",
        Code::F8 => b"seg side is not 0 or 1",
        Code::F9 => b"seg's linedef has no side there",
        Code::F10 => b"ssector's segs out of range",
        Code::F11 => b"child names nothing",
        Code::F12 => b"node origin out of range",
        Code::F13 => b"node named twice or root named",
        Code::F14 => b"node not reached",
        Code::F15 => b"ssector named more than once",
        Code::F16 => b"ssector not reached",
        Code::F17 => b"no ssector",
        Code::F18 => b"more than 32767 nodes",
        Code::N1 => b"lump name differs",
        Code::N2 => b"bytes left over",
        Code::N3 => b"two-sided flag without side 1",
        Code::N4 => b"no side 0",
        Code::N5 => b"linedef of no length",
        Code::N6 => b"ssector without segs",
        Code::N7 => b"partition without direction",
        Code::N8 => b"REJECT size",
        Code::N9 => b"BLOCKMAP short",
        Code::N10 => b"block list faulty",
        Code::N11 => b"no player 1 start",
        Code::N12 => b"vertex out of range",
    }
}
