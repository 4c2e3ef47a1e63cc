//! The objects of a survey, a line each.

ghost use Rattle.std.specs.Prelude.{◌≡◌, ◌<◌, ◌≤◌, ◌++◌, [], codes, drop, false, length, slice_index_or, take};
ghost use Rattle.std.specs.List.{flat_map};
ghost use Rattle.level_codes.specs.Codes.{finding_codes, report_order};
ghost use Rattle.level_codes.specs.declared.table.TheConstants.{REPORT_COUNT};
ghost use Rattle.line_io.specs.Writes.{Writes};
ghost use Rattle.lens_texts.specs.JsonString.{bool_text, json_string};
ghost use Rattle.lens_engines.specs.Counts.{fault_total, note_total};
ghost use Rattle.lens_engines.specs.Objects.{count_member, counts_text, doom_members, found_members, lump_members};
ghost use Rattle.lens_engines.specs.Objects.{refusal_text, refused_object, sound_members, warnings_member};
ghost use Rattle.lens_engines.specs.Unlooked.{unlooked_member};
ghost use Rattle.lens_engines.specs.declared.judging.Warnings.TheVariants as warnings;

use crate::judging::Warnings;
use crate::level_counts::LevelCounts;
use crate::report_counts::ReportCounts;
use crate::tables::Tables;
use crate::unlooked::write_unlooked;
use le_rec::Sink;
use lens_texts::{prepend_number, write_file, write_number, write_string};
use level_codes::{CodeSet, REPORT_COUNT, ReportCode};
use line_io::{IoFault, TextLine, emit};
use map_level::search::CODE_COUNT;
use wad_dir::WadFault;

/// Why a file is refused.
#[derive(Clone, Copy, Debug, PartialEq, Eq)]
pub enum FileRefusal {
    /// It can't be opened.
    Unopened,
    /// Reading it failed.
    Unread,
    /// It has more than 268,435,456 bytes.
    TooLarge,
    /// Its bytes have no directory.
    NoWad(WadFault),
}

impl FileRefusal {
    ghost use Rattle.std.specs.Prelude.{◌≡◌};
    ghost use Rattle.lens_engines.specs.Objects.{refusal_text};

    /// The reason in words.
    pub fn text(self) -> &'static [u8]
        ensures { result.now ≡ refusal_text self }
    {
        match self {
            FileRefusal::Unopened => b"can't be opened",
            FileRefusal::Unread => b"can't be read",
            FileRefusal::TooLarge => b"larger than 268435456 bytes",
            FileRefusal::NoWad(WadFault::Short) => b"shorter than a WAD header",
            FileRefusal::NoWad(WadFault::Magic) => {
                b"not a WAD file: it begins with neither IWAD nor PWAD"
            }
            FileRefusal::NoWad(WadFault::Count) => b"a negative count of lumps",
            FileRefusal::NoWad(WadFault::Directory) => b"its directory isn't inside the file",
        }
    }
}

/// Writes the object of a refused file.
pub fn refused_line<W: Sink>(path: &[u8], refusal: FileRefusal, out: &mut W) -> Result<(), IoFault>
    requires { (W.state out.old).failed ≡ false }
    ensures { Writes (W.state out.old) (W.state out.new) (refused_object path.now refusal) result }
{
    write_file(path, out)?;
    write_refusal(refusal, out)
}

// `,"refused":<text>}`
fn write_refusal<W: Sink>(refusal: FileRefusal, out: &mut W) -> Result<(), IoFault>
    requires { (W.state out.old).failed ≡ false }
    ensures { Writes (W.state out.old) (W.state out.new)
        (codes ",\"refused\":" ++ (json_string (refusal_text refusal) ++ codes "}\n")) result }
{
    emit(out, b",\"refused\":")?;
    write_string(refusal.text(), out)?;
    emit(out, b"}\n")
}

/// Writes what the object of a level of Doom's format ends with.
pub fn write_doom<W: Sink>(counted: &LevelCounts, out: &mut W) -> Result<(), IoFault>
    requires { (W.state out.old).failed ≡ false }
    ensures { Writes (W.state out.old) (W.state out.new) (doom_members counted.now) result }
{
    write_lumps(&counted.tables, out)?;
    write_end(counted, out)
}

// Writes the findings and the warnings, and the object's end.
fn write_end<W: Sink>(counted: &LevelCounts, out: &mut W) -> Result<(), IoFault>
    requires { (W.state out.old).failed ≡ false }
    ensures { Writes (W.state out.old) (W.state out.new)
        (found_members counted.now.counts
        ++ (warnings_member counted.now.warnings counted.now.counts ++ (unlooked_member counted.now.unlooked ++ codes "}\n"))) result }
{
    write_found(&counted.counts, out)?;
    write_warnings(counted.warnings, &counted.counts, out)?;
    write_last(&counted.unlooked, out)
}

/// Writes which warnings weren't looked for, and the object's end.
pub(crate) fn write_last<W: Sink>(unlooked: &CodeSet, out: &mut W) -> Result<(), IoFault>
    requires { (W.state out.old).failed ≡ false }
    ensures { Writes (W.state out.old) (W.state out.new) (unlooked_member unlooked.now ++ codes "}\n") result }
{
    write_unlooked(unlooked, out)?;
    emit(out, b"}\n")
}

// Writes how many records or bytes the ten lumps have.
fn write_lumps<W: Sink>(tables: &Tables, out: &mut W) -> Result<(), IoFault>
    requires { (W.state out.old).failed ≡ false }
    ensures { Writes (W.state out.old) (W.state out.new) (flat_map (λ text. text) (lump_members tables.now)) result }
{
    'lumps: for i in 0..10 {
        write_count_of(tables, i, out)?;
    }
    Ok(())
}

// Writes how many records or bytes lump i + 1 of the ten has.
fn write_count_of<W: Sink>(tables: &Tables, i: usize, out: &mut W) -> Result<(), IoFault>
    requires few { i < 10 }
    requires sound { (W.state out.old).failed ≡ false }
    ensures { Writes (W.state out.old) (W.state out.new) (slice_index_or (lump_members tables.now) i []) result }
{
    match i {
        0 => write_number(b"things", tables.things, out),
        1 => write_number(b"linedefs", tables.linedefs, out),
        2 => write_number(b"sidedefs", tables.sidedefs, out),
        3 => write_number(b"vertexes", tables.vertexes, out),
        4 => write_number(b"segs", tables.segs, out),
        5 => write_number(b"ssectors", tables.ssectors, out),
        6 => write_number(b"nodes", tables.nodes, out),
        7 => write_number(b"sectors", tables.sectors, out),
        8 => write_number(b"reject", tables.reject, out),
        _ => write_number(b"blockmap", tables.blockmap, out),
    }
}

// Writes what was found.
fn write_found<W: Sink>(counts: &ReportCounts, out: &mut W) -> Result<(), IoFault>
    requires { (W.state out.old).failed ≡ false }
    ensures { Writes (W.state out.old) (W.state out.new) (found_members counts.now) result }
{
    write_sound(counts.faults(), counts.notes(), out)?;
    write_findings(counts, out)
}

// `,"sound":<true or false>,"faults":<n>,"notes":<n>`
fn write_sound<W: Sink>(faults: u64, notes: u64, out: &mut W) -> Result<(), IoFault>
    requires { (W.state out.old).failed ≡ false }
    ensures { Writes (W.state out.old) (W.state out.new) (sound_members faults notes) result }
{
    let mut line = TextLine::new();
    prepend_number(&mut line, b"notes", notes);
    prepend_number(&mut line, b"faults", faults);
    line.prepend_bytes(bool_text(faults == 0));
    line.prepend_bytes(b",\"sound\":");
    emit(out, line.as_bytes())
}

fn bool_text(value: bool) -> &'static [u8]
    ensures text { result.now ≡ bool_text value }
    ensures short { length result.now ≤ 5 }
{
    if value { b"true" } else { b"false" }
}

// `,"findings":{<codes>}`
fn write_findings<W: Sink>(counts: &ReportCounts, out: &mut W) -> Result<(), IoFault>
    requires { (W.state out.old).failed ≡ false }
    ensures { Writes (W.state out.old) (W.state out.new)
        (codes ",\"findings\":{" ++ (counts_text counts.now finding_codes ++ codes "}")) result }
{
    emit(out, b",\"findings\":{")?;
    write_codes(counts, 0, CODE_COUNT, out)?;
    emit(out, b"}")
}

// `,"warnings":{<codes>}`, where they are asked for
fn write_warnings<W: Sink>(
    warnings: Warnings,
    counts: &ReportCounts,
    out: &mut W,
) -> Result<(), IoFault>
    requires { (W.state out.old).failed ≡ false }
    ensures { Writes (W.state out.old) (W.state out.new) (warnings_member warnings counts.now) result }
{
    match warnings {
        Warnings::Unasked => emit(out, b""),
        Warnings::Told => write_asked(counts, out),
    }
}

// `,"warnings":{<codes>}`
fn write_asked<W: Sink>(counts: &ReportCounts, out: &mut W) -> Result<(), IoFault>
    requires { (W.state out.old).failed ≡ false }
    ensures { Writes (W.state out.old) (W.state out.new) (warnings_member warnings.Told counts.now) result }
{
    emit(out, b",\"warnings\":{")?;
    write_codes(counts, CODE_COUNT, REPORT_COUNT, out)?;
    emit(out, b"}")
}

// Writes the codes of some ranks of which there are any, each with how many, and commas between them.
fn write_codes<W: Sink>(
    counts: &ReportCounts,
    from: usize,
    to: usize,
    out: &mut W,
) -> Result<(), IoFault>
    requires within { to ≤ REPORT_COUNT }
    requires sound { (W.state out.old).failed ≡ false }
    ensures { Writes (W.state out.old) (W.state out.new) (counts_text counts.now (drop from (take to report_order))) result }
{
    let mut separator: &[u8] = b"";
    'codes: for rank in from..to {
        let code = ReportCode::at(rank);
        let count = counts.get(code);
        if count > 0 {
            write_count(separator, code, count, out)?;
            separator = b",";
        }
    }
    Ok(())
}

// `<separator>"<code>":<count>`
fn write_count<W: Sink>(
    separator: &[u8],
    code: ReportCode,
    count: u64,
    out: &mut W,
) -> Result<(), IoFault>
    requires short { length separator.now ≤ 1 }
    requires sound { (W.state out.old).failed ≡ false }
    ensures { Writes (W.state out.old) (W.state out.new) (separator.now ++ count_member code count) result }
{
    let mut line = TextLine::new();
    line.prepend_natural(count);
    line.prepend_bytes(b"\":");
    line.prepend_bytes(code.name());
    line.prepend_bytes(b"\"");
    line.prepend_bytes(separator);
    emit(out, line.as_bytes())
}
