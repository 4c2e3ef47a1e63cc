//! The command `census`: how many points of each rectangle of its input lie in each sector.

ghost use Rattle.std.specs.Prelude.{◌≡◌, ◌≤◌, ◌∷◌, [], false, true, length, map, IfErr, IfOk};
ghost use Rattle.std.specs.List.{flat_map};
ghost use Rattle.line_io.specs.NumberAnswers.{RefusesContent};
ghost use Rattle.line_io.specs.Numbers.{HasForm};
ghost use Rattle.line_io.specs.Writes.{Writes};
ghost use Rattle.line_io.specs.declared.lines.TheConstants.{MAX_CONTENT};
ghost use Rattle.map_geo.specs.Rect.{IsRect};
ghost use Rattle.wad_dir.specs.declared.set.TheConstants.{MAX_FILES};
ghost use Rattle.look_engines.specs.Engines.Census.{AreRect, RunsCensus, TellsCensus, count_text, counts_text, rect_text};

use crate::fault::{RunFault, ended};
use crate::opening::{open_level, sector_tree, tally_of};
use le_rec::{Sink, Source};
use line_io::{
    IoFault, LineCommand, LineRefusal, MAX_READ, TextLine, answer_lines, emit, read_numbers,
};
use map_geo::Rect;
use map_level::Reading;
use map_tree::{Areas, Tally};
use std::alloc::Allocator;
use wad_dir::AsBytes;

/// Answers rectangles.
#[derive(Drop)]
struct CensusCommand<'t, 'a, A: Allocator + Copy> {
    tally: Tally<'t, 'a, A>,
}

impl<A: Allocator + Copy> LineCommand for CensusCommand<'_, '_, A> {
    ghost Answers = { λ command. TellsCensus command.tally };

    ghost takes_memory = { true };

    fn reply<W: Sink>(&mut self, content: &[u8], out: &mut W) -> Result<(), IoFault> {
        match read_rect(content) {
            Ok(rect) => match self.tally.areas(rect) {
                Ok(areas) => write_areas(rect, &areas, out),
                Err(_) => Err(IoFault::Memory),
            },
            Err(refusal) => emit(out, refusal.text()),
        }
    }
}

// The rectangle of a content.
fn read_rect(content: &[u8]) -> Result<Rect, LineRefusal>
    requires { length content.now ≤ MAX_CONTENT }
    ensures read { IfOk result (λ rect.
        HasForm 4 content.now (rect.x0 ∷ rect.y0 ∷ rect.x1 ∷ rect.y1 ∷ [])) }
    ensures allowed { IfOk result IsRect }
    ensures refused { IfErr result (RefusesContent 4 AreRect content.now) }
{
    let Some(found) = read_numbers::<4>(content) else {
        return Err(LineRefusal::Form);
    };
    let [x0, y0, x1, y1] = found.values;
    match Rect::new(x0, y0, x1, y1) {
        Some(rect) => Ok(rect),
        None => Err(LineRefusal::Range),
    }
}

// Writes the line of a rectangle and its pairs.
fn write_areas<A: Allocator, W: Sink>(
    rect: Rect,
    areas: &Areas<A>,
    out: &mut W,
) -> Result<(), IoFault>
    requires { (W.state out.old).failed ≡ false }
    ensures { Writes (W.state out.old) (W.state out.new) (counts_text rect areas.now) result }
{
    write_rect(rect, out)?;
    write_pairs(areas, out)?;
    emit(out, b"\n")
}

// Writes each pair.
fn write_pairs<A: Allocator, W: Sink>(areas: &Areas<A>, out: &mut W) -> Result<(), IoFault>
    requires { (W.state out.old).failed ≡ false }
    ensures { Writes (W.state out.old) (W.state out.new) (flat_map count_text areas.now) result }
{
    'pairs: for i in 0..areas.len() {
        let Some((sector, count)) = areas.get(i) else {
            break
        };
        write_count(sector, count, out)?;
    }
    Ok(())
}

// `<x0> <y0> <x1> <y1> points <n>`
fn write_rect<W: Sink>(rect: Rect, out: &mut W) -> Result<(), IoFault>
    requires { (W.state out.old).failed ≡ false }
    ensures { Writes (W.state out.old) (W.state out.new) (rect_text rect []) result }
{
    let mut line = TextLine::new();
    line.prepend_natural(u64::from(rect.point_count()));
    line.prepend_bytes(b" points ");
    line.prepend_integer(i64::from(rect.y1()));
    line.prepend_bytes(b" ");
    line.prepend_integer(i64::from(rect.x1()));
    line.prepend_bytes(b" ");
    line.prepend_integer(i64::from(rect.y0()));
    line.prepend_bytes(b" ");
    line.prepend_integer(i64::from(rect.x0()));
    emit(out, line.as_bytes())
}

// ` <sector>:<count>`
fn write_count<W: Sink>(sector: u16, count: u32, out: &mut W) -> Result<(), IoFault>
    requires { (W.state out.old).failed ≡ false }
    ensures { Writes (W.state out.old) (W.state out.new) (count_text (sector, count)) result }
{
    let mut line = TextLine::new();
    line.prepend_natural(u64::from(count));
    line.prepend_bytes(b":");
    line.prepend_natural(u64::from(sector));
    line.prepend_bytes(b" ");
    emit(out, line.as_bytes())
}

/// Writes, for each line `x0 y0 x1 y1` of the input, how many whole points the rectangle from (x0, y0) to (x1, y1) has,
/// and how many of them lie in each sector that has one. Coordinates are in map units from -16384 to 16383, and a
/// rectangle has 1 to 1048576 points.
///
/// `Set`, `Memory`, `Level` and `Audit` come before anything is read or written; then `Read`, `Write`, `TooLong`, and
/// `Memory` if a census is refused a growth.
pub fn census_text<A: Allocator + Copy, F: AsBytes, S: Source, W: Sink>(
    alloc: A,
    files: &[F],
    name: &[u8],
    reading: Reading,
    input: &mut S,
    limit: u64,
    out: &mut W,
) -> Result<(), RunFault>
    requires few { length files.now ≤ MAX_FILES }
    requires limit { limit ≤ MAX_READ }
    requires input { (S.state input.old).failed ≡ false }
    requires out { (W.state out.old).failed ≡ false }
    ensures { RunsCensus S.state W.state (map F.bytes files.now) name.now reading limit input.old input.new out.old out.new result }
{
    let level = open_level(alloc, files, name, reading)?;
    let tree = sector_tree(alloc, &level)?;
    let tally = tally_of(alloc, &tree)?;
    ended(answer_lines(&mut CensusCommand { tally }, input, limit, out))
}
