//! The command `lumps`: the files and their entries.

ghost use Rattle.std.specs.Prelude.{◌≡◌, ◌≤◌, ◌<◌, ◌^◌, [], false, length, map};
ghost use Rattle.le_rec.specs.Name.{name_of};
ghost use Rattle.line_io.specs.Writes.{Writes};
ghost use Rattle.wad_dir.specs.declared.set.TheConstants.{MAX_FILES};
ghost use Rattle.look_engines.specs.Engines.Lumps.{RunsLumps, entry_line, file_line, file_text, lumps_text};

use crate::fault::{RunFault, ended};
use crate::names::prepend_name;
use crate::opening::open_set;
use le_rec::{Entry, Name8, Sink};
use line_io::{IoFault, TextLine, emit};
use std::alloc::Allocator;
use wad_dir::{AsBytes, Kind, Set, Wad};

/// Writes the files, each with its kind and number of entries, and their entries, each with its number, place, size and
/// name. `Set` and `Memory` come before anything is written.
pub fn lumps<A: Allocator, F: AsBytes, W: Sink>(
    alloc: A,
    files: &[F],
    out: &mut W,
) -> Result<(), RunFault>
    requires few { length files.now ≤ MAX_FILES }
    requires sound { (W.state out.old).failed ≡ false }
    ensures { RunsLumps W.state (map F.bytes files.now) out.old out.new result }
{
    let set = open_set(alloc, files)?;
    ended(write_files(&set, out))
}

// Writes the lines of all files.
fn write_files<A: Allocator, W: Sink>(set: &Set<'_, A>, out: &mut W) -> Result<(), IoFault>
    requires { (W.state out.old).failed ≡ false }
    ensures { Writes (W.state out.old) (W.state out.new) (lumps_text set.now) result }
{
    let mut first = 0;
    'files: for i in 0..set.files() {
        let Some(wad) = set.file(i) else { break };
        write_file(i + 1, first, &wad, out)?;
        first += wad.len();
    }
    Ok(())
}

// Writes the lines of file `n`, whose entries are numbered on from `first`.
fn write_file<W: Sink>(n: usize, first: usize, wad: &Wad<'_>, out: &mut W) -> Result<(), IoFault>
    requires sound { (W.state out.old).failed ≡ false }
    requires fits { first < 2 ^ 38 }
    ensures { Writes (W.state out.old) (W.state out.new) (file_text n first wad.now) result }
{
    let mut line = TextLine::new();
    prepend_file(&mut line, n, wad.kind(), wad.len());
    emit(out, line.as_bytes())?;
    let entries = wad.entries();
    'entries: for i in 0..entries.len() {
        write_entry(first + i, &entries.at(i), out)?;
    }
    Ok(())
}

// Writes the line of an entry of that number.
fn write_entry<W: Sink>(g: usize, entry: &Entry, out: &mut W) -> Result<(), IoFault>
    requires { (W.state out.old).failed ≡ false }
    ensures { Writes (W.state out.old) (W.state out.new)
        (entry_line g entry.now.filepos entry.now.size (name_of entry.now.name)) result }
{
    let mut line = TextLine::new();
    prepend_entry(&mut line, g, entry);
    emit(out, line.as_bytes())
}

// `<g> <filepos> <size> <name>`
#[tactic(auto, unfolding(crate::specs::Engines::Lumps::entry_line))]
fn prepend_entry(line: &mut TextLine, g: usize, entry: &Entry)
    requires { line.old ≡ [] }
    ensures { line.new ≡ entry_line g entry.now.filepos entry.now.size (name_of entry.now.name) }
{
    line.prepend_bytes(b"\n");
    prepend_name(line, &Name8::stored(entry.name));
    line.prepend_bytes(b" ");
    line.prepend_integer(i64::from(entry.size));
    line.prepend_bytes(b" ");
    line.prepend_integer(i64::from(entry.filepos));
    line.prepend_bytes(b" ");
    line.prepend_natural(g as u64);
}

// `file <n> <IWAD or PWAD> <count>`
#[tactic(auto, unfolding(crate::specs::Engines::Lumps::file_line))]
fn prepend_file(line: &mut TextLine, n: usize, kind: Kind, count: usize)
    requires { line.old ≡ [] }
    ensures { line.new ≡ file_line n kind count }
{
    line.prepend_bytes(b"\n");
    line.prepend_natural(count as u64);
    line.prepend_bytes(match kind {
        Kind::Iwad => b" IWAD ",
        Kind::Pwad => b" PWAD ",
    });
    line.prepend_natural(n as u64);
    line.prepend_bytes(b"file ");
}
