//! The jobs: each round on inputs of its own.

ghost use Rattle.std.specs.Prelude.{◌≤◌, length};
ghost use Rattle.level_starts.specs.Starts.{LevelStartsAt};
ghost use Rattle.wad_dir.specs.Entries.{names};

use crate::digest::Digest;
use crate::fault::Fault;
use crate::inputs::{demo, point_lines, square_lines};
use crate::random::Random;
use crate::varied::varied;
use lens_engines::{Base, Question, Rules, Warnings, check_file};
use lens_texts::{Form, label_of, level_at};
use level_codes::CodeSet;
use level_starts::{Format, LevelStarts, format_of};
use look_engines::{MAX_INPUT, MAX_READ, census_text, lmp, points};
use map_cells::{CellCount, Frame};
use map_level::{Level, Reading};
use map_picture::{View, draw_level};
use memory_streams::{FromSlice, ToVec};
use std::alloc::Global;
use wad_dir::Set;

/// What is done in each round.
#[derive(Clone, Copy, PartialEq, Eq)]
pub enum BenchJob {
    /// Each level of the file is drawn, with other margins and other cells.
    Atlas,
    /// The file is checked with its warnings, after things, tags and textures were changed.
    Check,
    /// Points are looked up on each level of the file.
    Points,
    /// Squares are counted on each level of the file.
    Census,
    /// A demo is listed.
    Lmp,
}

/// The job of a word.
pub fn job_named(word: &str) -> Option<BenchJob> {
    match word.as_bytes() {
        b"atlas" => Some(BenchJob::Atlas),
        b"check" => Some(BenchJob::Check),
        b"points" => Some(BenchJob::Points),
        b"census" => Some(BenchJob::Census),
        b"lmp" => Some(BenchJob::Lmp),
        _ => None,
    }
}

/// Does a round of a job over the file; `lmp` needs none.
pub fn do_round(
    alloc: Global,
    job: BenchJob,
    files: &[Vec<u8>],
    random: &mut Random,
    digest: &mut Digest,
) -> Result<(), Fault>
    requires { length files.now ≤ 1 }
{
    if job == BenchJob::Lmp {
        return list_demo(alloc, random, digest);
    }
    let [bytes] = files else {
        return Err(Fault::File);
    };
    let set = Set::one(alloc, bytes)?;
    match job {
        BenchJob::Atlas => draw_levels(alloc, &set, random, digest),
        BenchJob::Check => check_varied(alloc, bytes, &set, random, digest),
        BenchJob::Points => {
            let lines = point_lines(alloc, random, 40_000)?;
            ask_levels(alloc, job, files, &set, &lines, digest)
        }
        BenchJob::Census | BenchJob::Lmp => {
            let lines = square_lines(alloc, random, 40)?;
            ask_levels(alloc, job, files, &set, &lines, digest)
        }
    }
}

// Lists a demo of 100,000 tics.
fn list_demo(alloc: Global, random: &mut Random, digest: &mut Digest) -> Result<(), Fault> {
    let bytes = demo(alloc, random, 100_000)?;
    let mut out = ToVec::new(alloc);
    lmp(&mut FromSlice::new(&bytes), MAX_READ, &mut out)?;
    digest.add(out.taken());
    Ok(())
}

// Draws each level of Doom's format.
fn draw_levels(
    alloc: Global,
    set: &Set<'_>,
    random: &mut Random,
    digest: &mut Digest,
) -> Result<(), Fault> {
    'levels: for start in LevelStarts::of(set) {
        draw_start(alloc, set, start, random, digest)?;
    }
    Ok(())
}

// Draws the level that starts at an entry, where it is of Doom's format.
fn draw_start(
    alloc: Global,
    set: &Set<'_>,
    start: usize,
    random: &mut Random,
    digest: &mut Digest,
) -> Result<(), Fault>
    requires { LevelStartsAt (names set.now) start }
{
    match format_of(set, start) {
        Format::Doom => {
            let level = level_at(set, start, Reading::Signed);
            draw_varied(alloc, &level, random, digest)
        }
        _ => Ok(()),
    }
}

// Draws a level with margins and with a number of cells of its own.
fn draw_varied(
    alloc: Global,
    level: &Level<'_>,
    random: &mut Random,
    digest: &mut Digest,
) -> Result<(), Fault> {
    let frame = Frame::of(level).and_then(|frame| widened(frame, random));
    let Some(cells) = CellCount::new(512 - random.below(64)) else {
        return Ok(());
    };
    let asked = View {
        frame,
        cells,
        warnings: None,
    };
    let mut out = ToVec::new(alloc);
    draw_level(alloc, level, asked, &mut out)?;
    digest.add(out.taken());
    Ok(())
}

// A frame with a margin of less than 256 units on each side.
fn widened(frame: Frame, random: &mut Random) -> Option<Frame> {
    let mut margin = || random.below(256) as i16;
    Frame::new(
        frame.x0().saturating_sub(margin()),
        frame.y0().saturating_sub(margin()),
        frame.x1().saturating_add(margin()),
        frame.y1().saturating_add(margin()),
    )
}

// Checks a changed file.
fn check_varied(
    alloc: Global,
    bytes: &[u8],
    set: &Set<'_>,
    random: &mut Random,
    digest: &mut Digest,
) -> Result<(), Fault> {
    let changed = varied(alloc, bytes, set, random)?;
    let base = Base::none();
    let rules = Rules {
        reading: Reading::Signed,
        warnings: Warnings::Told,
        ignored: CodeSet::none(),
        failing: CodeSet::none(),
        game_ends: false,
    };
    let question = Question {
        form: Form::Lines,
        path: b"levels.wad",
        most: 10,
        judging: rules.over(&base),
    };
    let mut out = ToVec::new(alloc);
    check_file(alloc, &question, &changed, &mut out)?;
    digest.add(out.taken());
    Ok(())
}

// Asks each level of Doom's format for the answers to the same lines.
fn ask_levels(
    alloc: Global,
    job: BenchJob,
    files: &[Vec<u8>],
    set: &Set<'_>,
    lines: &[u8],
    digest: &mut Digest,
) -> Result<(), Fault>
    requires { length files.now ≤ 1 }
{
    'levels: for start in LevelStarts::of(set) {
        let mut text = [0; 32];
        let len = label_of(set, start).shown(&mut text);
        ask_level(alloc, job, files, &text[..len], lines, digest)?;
    }
    Ok(())
}

// Asks the level of a name.
fn ask_level(
    alloc: Global,
    job: BenchJob,
    files: &[Vec<u8>],
    name: &[u8],
    lines: &[u8],
    digest: &mut Digest,
) -> Result<(), Fault>
    requires { length files.now ≤ 1 }
{
    let mut input = FromSlice::new(lines);
    let mut out = ToVec::new(alloc);
    if job == BenchJob::Points {
        points(
            alloc,
            files,
            name,
            Reading::Signed,
            &mut input,
            MAX_INPUT,
            &mut out,
        )?;
    } else {
        census_text(
            alloc,
            files,
            name,
            Reading::Signed,
            &mut input,
            MAX_INPUT,
            &mut out,
        )?;
    }
    digest.add(out.taken());
    Ok(())
}
