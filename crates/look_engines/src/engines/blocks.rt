//! The command `blocks`: the block of each point of the input, and the block's list.

ghost use Rattle.std.specs.Prelude.{◌≡◌, ◌≤◌, ◌+◌, ◌-◌, ◌*◌, ◌++◌, ◌∷◌, [], ℕ, List, false, length, map, take, drop, codes, IfErr, IfOk};
ghost use Rattle.line_io.specs.Writes.{EndsWriting, TakesText, Writes};
ghost use Rattle.map_geo.specs.Point.{point_at};
ghost use Rattle.wad_dir.specs.declared.set.TheConstants.{MAX_FILES};
ghost use Rattle.look_engines.specs.Engines.Blocks.{AnswersBlock, AnswersBlocks, HasBlockMap, RefusesBlocks, RunsBlocks, block_text};
ghost use Rattle.look_engines.specs.Engines.Blocks.{fault_text, lines_text, no_block_text};
ghost use Rattle.look_engines.specs.Engines.Show.{numbers_text};

use crate::contents::{Pair, read_point};
use crate::fault::{RunFault, ended};
use crate::opening::open_level;
use le_rec::{Sink, Source};
use line_io::{IoFault, LineCommand, MAX_READ, TextLine, answer_lines, emit};
use map_geo::Point;
use map_level::Reading;
use map_tables::{BlockFault, BlockLines, BlockMap};
use std::alloc::Allocator;
use wad_dir::AsBytes;

/// How many numbers are put into a line of text at once.
const NUMBERS: usize = 11;

/// Answers points.
#[derive(Drop)]
struct BlockCommand<'a> {
    map: BlockMap<'a>,
}

impl<'a> LineCommand for BlockCommand<'a> {
    ghost Answers = { λ command. AnswersBlocks command.map };

    ghost takes_memory = { false };

    fn reply<W: Sink>(&mut self, content: &[u8], out: &mut W) -> Result<(), IoFault> {
        match read_point(content) {
            Ok(named) => self.write_block(named.point, named.pair, out),
            Err(refusal) => emit(out, refusal.text()),
        }
    }
}

impl BlockCommand<'_> {
    // Writes the block of a point.
    fn write_block<W: Sink>(&self, point: Point, pair: Pair<'_>, out: &mut W) -> Result<(), IoFault>
        requires point { point ≡ point_at pair.x pair.y }
        requires sound { (W.state out.old).failed ≡ false }
        ensures takes { (text : List ℕ) → AnswersBlock self.now.map pair.entry.x pair.entry.y text
            → TakesText (W.state out.old) (W.state out.new) text result }
        ensures ends { EndsWriting (W.state out.new) result }
    {
        let Some((bx, by)) = self.map.block_of(point) else {
            return write_no_block(pair, out);
        };
        match self.map.list(bx, by) {
            Ok(lines) => write_lines(pair, bx, by, &lines, out),
            Err(BlockFault::OffsetOutside) => write_fault(pair, bx, by, 1, out),
            Err(BlockFault::NoEnd) => write_fault(pair, bx, by, 2, out),
        }
    }
}

// `<x> <y> no block`
fn write_no_block<W: Sink>(pair: Pair<'_>, out: &mut W) -> Result<(), IoFault>
    requires { (W.state out.old).failed ≡ false }
    ensures { Writes (W.state out.old) (W.state out.new) (no_block_text pair.entry.x pair.entry.y) result }
{
    let mut line = TextLine::new();
    line.prepend_bytes(b" no block\n");
    pair.prepend(&mut line);
    emit(out, line.as_bytes())
}

// `<x> <y> block <bx> <by> fault <1 or 2>`
fn write_fault<W: Sink>(
    pair: Pair<'_>,
    bx: u16,
    by: u16,
    number: u8,
    out: &mut W,
) -> Result<(), IoFault>
    requires { (W.state out.old).failed ≡ false }
    ensures { Writes (W.state out.old) (W.state out.new)
        (block_text pair.entry.x pair.entry.y bx by (fault_text number)) result }
{
    let mut line = TextLine::new();
    line.prepend_bytes(b"\n");
    line.prepend_natural(u64::from(number));
    line.prepend_bytes(b" fault ");
    prepend_block(&mut line, pair, bx, by);
    emit(out, line.as_bytes())
}

// `<x> <y> block <bx> <by> lines` and each number of the list
fn write_lines<W: Sink>(
    pair: Pair<'_>,
    bx: u16,
    by: u16,
    lines: &BlockLines<'_>,
    out: &mut W,
) -> Result<(), IoFault>
    requires { (W.state out.old).failed ≡ false }
    ensures { Writes (W.state out.old) (W.state out.new)
        (block_text pair.entry.x pair.entry.y bx by (lines_text lines.now)) result }
{
    write_front(pair, bx, by, out)?;
    let mut from = 0;
    'parts: while lines.len() - from > NUMBERS {
        let to = from + NUMBERS;
        write_numbers(lines, from, to, out)?;
        from = to;
    }
    write_last(lines, from, out)
}

// `<x> <y> block <bx> <by> lines`
fn write_front<W: Sink>(pair: Pair<'_>, bx: u16, by: u16, out: &mut W) -> Result<(), IoFault>
    requires { (W.state out.old).failed ≡ false }
    ensures { Writes (W.state out.old) (W.state out.new)
        (block_text pair.entry.x pair.entry.y bx by (codes " lines")) result }
{
    let mut line = TextLine::new();
    line.prepend_bytes(b" lines");
    prepend_block(&mut line, pair, bx, by);
    emit(out, line.as_bytes())
}

// `<x> <y> block <bx> <by>` before the line
fn prepend_block(line: &mut TextLine, pair: Pair<'_>, bx: u16, by: u16)
    requires { length line.old ≤ 30 }
    ensures { line.new ≡ block_text pair.entry.x pair.entry.y bx by line.old }
{
    line.prepend_natural(u64::from(by));
    line.prepend_bytes(b" ");
    line.prepend_natural(u64::from(bx));
    line.prepend_bytes(b" block ");
    pair.prepend(line);
}

// Writes the numbers from one on up to another.
fn write_numbers<W: Sink>(
    lines: &BlockLines<'_>,
    from: usize,
    to: usize,
    out: &mut W,
) -> Result<(), IoFault>
    requires ordered { from ≤ to }
    requires within { to ≤ length lines.now }
    requires few { to ≤ from + NUMBERS }
    requires sound { (W.state out.old).failed ≡ false }
    ensures { Writes (W.state out.old) (W.state out.new)
        (numbers_text (take (to - from) (drop from lines.now))) result }
{
    let mut line = TextLine::new();
    prepend_numbers(&mut line, lines, from, to);
    emit(out, line.as_bytes())
}

// Writes the last numbers and the line's end.
fn write_last<W: Sink>(lines: &BlockLines<'_>, from: usize, out: &mut W) -> Result<(), IoFault>
    requires within { from ≤ length lines.now }
    requires few { length lines.now ≤ from + NUMBERS }
    requires sound { (W.state out.old).failed ≡ false }
    ensures { Writes (W.state out.old) (W.state out.new)
        (numbers_text (drop from lines.now) ++ 10 ∷ []) result }
{
    let mut line = TextLine::new();
    line.prepend_bytes(b"\n");
    prepend_numbers(&mut line, lines, from, lines.len());
    emit(out, line.as_bytes())
}

// Puts the numbers from one on up to another before the line.
fn prepend_numbers(line: &mut TextLine, lines: &BlockLines<'_>, from: usize, to: usize)
    requires ordered { from ≤ to }
    requires within { to ≤ length lines.now }
    requires room { length line.old + 12 * (to - from) ≤ 134 }
    ensures { line.new ≡ numbers_text (take (to - from) (drop from lines.now)) ++ line.old }
{
    for i in (from..to).rev() {
        let Some(word) = lines.get(i) else { break };
        line.prepend_integer(i64::from(word));
        line.prepend_bytes(b" ");
    }
}

/// Writes, for each line `x y` of the input, the block that holds the point and the numbers of the block's list, or
/// which fault the list has. The point is in map units from -16384 to 16383. The level may have faults.
///
/// `Set`, `Memory`, `Level`, and `NoBlockMap` if the lump has fewer than 8 bytes, come before anything is read or
/// written; then `Read`, `Write` and `TooLong`.
pub fn blocks<A: Allocator, F: AsBytes, S: Source, W: Sink>(
    alloc: A,
    files: &[F],
    name: &[u8],
    reading: Reading,
    input: &mut S,
    limit: u64,
    out: &mut W,
) -> Result<(), RunFault>
    requires few { length files.now ≤ MAX_FILES }
    requires limit { limit ≤ MAX_READ }
    requires input { (S.state input.old).failed ≡ false }
    requires out { (W.state out.old).failed ≡ false }
    ensures { RunsBlocks S.state W.state (map F.bytes files.now) name.now reading limit input.old input.new out.old out.new result }
{
    let map = open_block_map(alloc, files, name, reading)?;
    ended(answer_lines(&mut BlockCommand { map }, input, limit, out))
}

// The blockmap of the level of the name.
fn open_block_map<'a, A: Allocator, F: AsBytes>(
    alloc: A,
    files: &'a [F],
    name: &[u8],
    reading: Reading,
) -> Result<BlockMap<'a>, RunFault>
    requires { length files.now ≤ MAX_FILES }
    ensures ok { IfOk result (HasBlockMap (map F.bytes files.now) name.now reading) }
    ensures err { IfErr result (RefusesBlocks (map F.bytes files.now) name.now reading) }
{
    let level = open_level(alloc, files, name, reading)?;
    match BlockMap::of(level.blockmap(), reading) {
        Some(map) => Ok(map),
        None => Err(RunFault::NoBlockMap),
    }
}
