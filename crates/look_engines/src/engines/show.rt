//! The command `show`: the records of a level.

ghost use Rattle.std.specs.Prelude.{◌≡◌, ◌+◌, ◌<◌, ◌≤◌, ◌++◌, codes, false, length, map, slice_index_or, []};
ghost use Rattle.std.specs.Fmt.{decimal};
ghost use Rattle.line_io.specs.Writes.{Writes};
ghost use Rattle.line_io.specs.declared.text_line.TheConstants.{ROOM};
ghost use Rattle.map_level.specs.Reading.{number_of};
ghost use Rattle.wad_dir.specs.declared.set.TheConstants.{MAX_FILES};
ghost use Rattle.look_engines.specs.Engines.Show.{RunsShow, bytes_line, level_line, lump_texts, name_text, number_text, numbers_text};
ghost use Rattle.look_engines.specs.Engines.Show.{record_line, show_text, table_line, table_text};

use crate::fault::{RunFault, ended};
use crate::names::prepend_name;
use crate::opening::open_level;
use le_rec::{
    LineDef, Name8, Node, Record, SSector, Sector, Seg, SideDef, Sink, Table, Thing, Vertex,
};
use line_io::{IoFault, TextLine, emit};
use map_level::{Level, Reading, number};
use std::alloc::Allocator;
use wad_dir::AsBytes;

/// Writes the level's label and place. Then it writes for each of the level's lumps the number of records, the number of
/// bytes left over, and the records; or the number of bytes. `Set`, `Memory` and `Level` come before anything is written.
/// Links aren't tested.
pub fn show<A: Allocator, F: AsBytes, W: Sink>(
    alloc: A,
    files: &[F],
    name: &[u8],
    reading: Reading,
    out: &mut W,
) -> Result<(), RunFault>
    requires few { length files.now ≤ MAX_FILES }
    requires sound { (W.state out.old).failed ≡ false }
    ensures { RunsShow W.state (map F.bytes files.now) name.now reading out.old out.new result }
{
    let level = open_level(alloc, files, name, reading)?;
    ended(write_level(&level, out))
}

// Writes the lines of a level.
fn write_level<W: Sink>(level: &Level<'_>, out: &mut W) -> Result<(), IoFault>
    requires { (W.state out.old).failed ≡ false }
    ensures { Writes (W.state out.old) (W.state out.new) (show_text level.now) result }
{
    write_label(level, out)?;
    'lumps: for i in 0..10 {
        write_lump(level, i, out)?;
    }
    Ok(())
}

// `level <name> at <g>`
fn write_label<W: Sink>(level: &Level<'_>, out: &mut W) -> Result<(), IoFault>
    requires { (W.state out.old).failed ≡ false }
    ensures { Writes (W.state out.old) (W.state out.new)
        (level_line (slice_index_or level.now.names 0 []) level.now.label) result }
{
    let mut line = TextLine::new();
    line.prepend_bytes(b"\n");
    line.prepend_natural(level.label() as u64);
    line.prepend_bytes(b" at ");
    prepend_name(&mut line, &level.name(0));
    line.prepend_bytes(b"level ");
    emit(out, line.as_bytes())
}

// Writes the lines of lump i + 1 of the ten.
fn write_lump<W: Sink>(level: &Level<'_>, i: usize, out: &mut W) -> Result<(), IoFault>
    requires few { i < 10 }
    requires sound { (W.state out.old).failed ≡ false }
    ensures { Writes (W.state out.old) (W.state out.new) (slice_index_or (lump_texts level.now) i []) result }
{
    let reading = level.reading();
    match i {
        0 => write_table(b"THINGS", reading, &level.things(), out),
        1 => write_table(b"LINEDEFS", reading, &level.linedefs(), out),
        2 => write_table(b"SIDEDEFS", reading, &level.sidedefs(), out),
        3 => write_table(b"VERTEXES", reading, &level.vertexes(), out),
        4 => write_table(b"SEGS", reading, &level.segs(), out),
        5 => write_table(b"SSECTORS", reading, &level.ssectors(), out),
        6 => write_table(b"NODES", reading, &level.nodes(), out),
        7 => write_table(b"SECTORS", reading, &level.sectors(), out),
        8 => write_bytes(b"REJECT", level.reject(), out),
        _ => write_bytes(b"BLOCKMAP", level.blockmap(), out),
    }
}

// `<lump> <bytes>`
fn write_bytes<W: Sink>(lump: &[u8], bytes: &[u8], out: &mut W) -> Result<(), IoFault>
    requires short { length lump.now ≤ 8 }
    requires sound { (W.state out.old).failed ≡ false }
    ensures { Writes (W.state out.old) (W.state out.new) (bytes_line lump.now (length bytes.now)) result }
{
    let mut line = TextLine::new();
    line.prepend_bytes(b"\n");
    line.prepend_natural(bytes.len() as u64);
    line.prepend_bytes(b" ");
    line.prepend_bytes(lump);
    emit(out, line.as_bytes())
}

// Writes the lines of a table.
fn write_table<R: Shown, W: Sink>(
    lump: &[u8],
    reading: Reading,
    table: &Table<'_, R>,
    out: &mut W,
) -> Result<(), IoFault>
    requires short { length lump.now ≤ 8 }
    requires sound { (W.state out.old).failed ≡ false }
    ensures { Writes (W.state out.old) (W.state out.new)
        (table_text R.layout lump.now (map (R.under reading) table.now.records) table.now.rest) result }
{
    write_counts(lump, table.len(), table.rest(), out)?;
    'rows: for i in 0..table.len() {
        let Some(row) = table.get(i) else { break };
        write_row(i, reading, &row, out)?;
    }
    Ok(())
}

// `<lump> <number of records> rest <bytes left over>`
fn write_counts<W: Sink>(lump: &[u8], count: usize, rest: usize, out: &mut W) -> Result<(), IoFault>
    requires short { length lump.now ≤ 8 }
    requires sound { (W.state out.old).failed ≡ false }
    ensures { Writes (W.state out.old) (W.state out.new) (table_line lump.now count rest) result }
{
    let mut line = TextLine::new();
    line.prepend_bytes(b"\n");
    line.prepend_natural(rest as u64);
    line.prepend_bytes(b" rest ");
    line.prepend_natural(count as u64);
    line.prepend_bytes(b" ");
    line.prepend_bytes(lump);
    emit(out, line.as_bytes())
}

// `<index> <fields>`
fn write_row<R: Shown, W: Sink>(
    index: usize,
    reading: Reading,
    row: &R,
    out: &mut W,
) -> Result<(), IoFault>
    requires { (W.state out.old).failed ≡ false }
    ensures { Writes (W.state out.old) (W.state out.new) (record_line R.layout index (R.under reading row.now)) result }
{
    let mut line = TextLine::new();
    line.prepend_bytes(b"\n");
    row.prepend_fields(reading, &mut line);
    line.prepend_natural(index as u64);
    emit(out, line.as_bytes())
}

/// A record that `show` prints.
pub trait Shown: Record {
    ghost use Rattle.std.specs.Prelude.{◌≡◌, ◌+◌, ◌≤◌, ◌++◌, length};
    ghost use Rattle.look_engines.specs.Engines.Show.{record_text};
    ghost use Rattle.map_level.specs.declared.reading.Reading.{Reading};

    /// The record under a reading.
    ghost under: { Reading → Self → Self };

    /// Puts the fields before the line.
    fn prepend_fields(&self, reading: Reading, line: &mut TextLine)
        requires { length line.old ≤ 4 }
        ensures text { line.new ≡ record_text Self.layout (under reading self.now) ++ line.old }
        ensures length { length line.new ≤ length line.old + 120 };
}

// Puts a space and a number before the line.
fn prepend_number(line: &mut TextLine, stored: &i16)
    requires { length line.old + 22 ≤ ROOM }
    ensures text { line.new ≡ number_text stored.now ++ line.old }
    ensures length { length line.new ≤ length line.old + 7 }
{
    line.prepend_integer(i64::from(*stored));
    line.prepend_bytes(b" ");
}

// The same of an index under a reading.
fn prepend_index(line: &mut TextLine, reading: Reading, stored: &i16)
    requires { length line.old + 22 ≤ ROOM }
    ensures text { line.new ≡ number_text (number_of reading stored.now) ++ line.old }
    ensures length { length line.new ≤ length line.old + 7 }
{
    line.prepend_integer(i64::from(number(*stored, reading)));
    line.prepend_bytes(b" ");
}

// The same of a child word.
fn prepend_child(line: &mut TextLine, child: &u16)
    requires { length line.old + 22 ≤ ROOM }
    ensures text { line.new ≡ codes " " ++ decimal child.now ++ line.old }
    ensures length { length line.new ≤ length line.old + 6 }
{
    line.prepend_natural(u64::from(*child));
    line.prepend_bytes(b" ");
}

// The same of the four numbers of a box.
fn prepend_box(line: &mut TextLine, bounds: &[i16; 4])
    requires { length line.old + 44 ≤ ROOM }
    ensures text { line.new ≡ numbers_text bounds.now ++ line.old }
    ensures length { length line.new ≤ length line.old + 28 }
{
    for i in (0..4).rev() {
        prepend_number(line, &bounds[i]);
    }
}

// Prepends a space and a name as it is shown.
fn prepend_stored(line: &mut TextLine, name: &[u8; 8])
    requires { length line.old + 33 ≤ ROOM }
    ensures text { line.new ≡ name_text name.now ++ line.old }
    ensures length { length line.new ≤ length line.old + 33 }
{
    prepend_name(line, &Name8::stored(*name));
    line.prepend_bytes(b" ");
}

impl Shown for Thing {
    ghost under = { λ reading r. r };

    fn prepend_fields(&self, _reading: Reading, line: &mut TextLine) {
        prepend_number(line, &self.options);
        prepend_number(line, &self.kind);
        prepend_number(line, &self.angle);
        prepend_number(line, &self.y);
        prepend_number(line, &self.x);
    }
}

impl Shown for LineDef {
    ghost use Rattle.map_level.specs.Reading.{linedef_under};

    ghost under = { linedef_under };

    fn prepend_fields(&self, reading: Reading, line: &mut TextLine) {
        prepend_index(line, reading, &self.side1);
        prepend_index(line, reading, &self.side0);
        prepend_number(line, &self.tag);
        prepend_number(line, &self.special);
        prepend_number(line, &self.flags);
        prepend_index(line, reading, &self.v2);
        prepend_index(line, reading, &self.v1);
    }
}

impl Shown for SideDef {
    ghost use Rattle.map_level.specs.Reading.{sidedef_under};

    ghost under = { sidedef_under };

    fn prepend_fields(&self, reading: Reading, line: &mut TextLine) {
        prepend_index(line, reading, &self.sector);
        prepend_stored(line, &self.middle);
        prepend_stored(line, &self.bottom);
        prepend_stored(line, &self.top);
        prepend_number(line, &self.yoff);
        prepend_number(line, &self.xoff);
    }
}

impl Shown for Vertex {
    ghost under = { λ reading r. r };

    fn prepend_fields(&self, _reading: Reading, line: &mut TextLine) {
        prepend_number(line, &self.y);
        prepend_number(line, &self.x);
    }
}

impl Shown for Seg {
    ghost use Rattle.map_level.specs.Reading.{seg_under};

    ghost under = { seg_under };

    fn prepend_fields(&self, reading: Reading, line: &mut TextLine) {
        prepend_number(line, &self.offset);
        prepend_number(line, &self.side);
        prepend_index(line, reading, &self.linedef);
        prepend_number(line, &self.angle);
        prepend_index(line, reading, &self.v2);
        prepend_index(line, reading, &self.v1);
    }
}

impl Shown for SSector {
    ghost use Rattle.map_level.specs.Reading.{ssector_under};

    ghost under = { ssector_under };

    fn prepend_fields(&self, reading: Reading, line: &mut TextLine) {
        prepend_index(line, reading, &self.first);
        prepend_index(line, reading, &self.count);
    }
}

impl Shown for Node {
    ghost under = { λ reading r. r };

    fn prepend_fields(&self, _reading: Reading, line: &mut TextLine) {
        prepend_child(line, &self.child1);
        prepend_child(line, &self.child0);
        prepend_box(line, &self.box1);
        prepend_box(line, &self.box0);
        prepend_number(line, &self.dy);
        prepend_number(line, &self.dx);
        prepend_number(line, &self.y);
        prepend_number(line, &self.x);
    }
}

impl Shown for Sector {
    ghost under = { λ reading r. r };

    fn prepend_fields(&self, _reading: Reading, line: &mut TextLine) {
        prepend_number(line, &self.tag);
        prepend_number(line, &self.special);
        prepend_number(line, &self.light);
        prepend_stored(line, &self.ceiling_name);
        prepend_stored(line, &self.floor_name);
        prepend_number(line, &self.ceiling);
        prepend_number(line, &self.floor);
    }
}
