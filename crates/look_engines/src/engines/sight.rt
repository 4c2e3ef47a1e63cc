//! The command `sight`: whether a level's REJECT refuses sight between sectors.

ghost use Rattle.std.specs.Prelude.{◌≡◌, ◌<◌, ◌≤◌, ◌^◌, ◌++◌, [], ◌∷◌, false, length, map, codes};
ghost use Rattle.wad_dir.specs.declared.set.TheConstants.{MAX_FILES};
ghost use Rattle.look_engines.specs.Engines.Sight.{AnswersSight, RunsSight, reject_of, bit_text};

use crate::contents::read_sectors;
use crate::fault::{RunFault, ended};
use crate::opening::open_level;
use le_rec::{Sink, Source};
use line_io::{IoFault, LineCommand, MAX_READ, TextLine, answer_lines, emit};
use map_level::{Level, Reading};
use map_tables::Reject;
use std::alloc::Allocator;
use wad_dir::AsBytes;

/// Answers pairs of sectors.
#[derive(Drop)]
struct SightCommand<'a> {
    reject: Reject<'a>,
    sectors: u32,
    ghost counted: { reject.sectors ≡ sectors },
    ghost few: { sectors < 2 ^ 31 },
}

impl<'a> LineCommand for SightCommand<'a> {
    ghost Answers = { λ command. AnswersSight command.reject };

    ghost takes_memory = { false };

    fn reply<W: Sink>(&mut self, content: &[u8], out: &mut W) -> Result<(), IoFault> {
        match read_sectors(content, self.sectors) {
            Ok((a, b, pair)) => {
                let mut line = TextLine::new();
                prepend_sight(&mut line, self.reject.bit(a, b));
                pair.prepend(&mut line);
                emit(out, line.as_bytes())
            }
            Err(refusal) => emit(out, refusal.text()),
        }
    }
}

// ` <clear, blocked or unknown>`
fn prepend_sight(line: &mut TextLine, bit: Option<bool>)
    requires { line.old ≡ [] }
    ensures text { line.new ≡ codes " " ++ (bit_text bit ++ 10 ∷ []) }
    ensures short { length line.new ≤ 9 }
{
    match bit {
        Some(false) => line.prepend_bytes(b" clear\n"),
        Some(true) => line.prepend_bytes(b" blocked\n"),
        None => line.prepend_bytes(b" unknown\n"),
    }
}

/// Writes to each line `a b` of the input whether sight from sector a to sector b is clear or blocked, or unknown where
/// REJECT ends before their bit. The level may have faults.
///
/// `Set`, `Memory` and `Level` come before anything is read or written; then `Read`, `Write` and `TooLong`.
pub fn sight<A: Allocator, F: AsBytes, S: Source, W: Sink>(
    alloc: A,
    files: &[F],
    name: &[u8],
    input: &mut S,
    limit: u64,
    out: &mut W,
) -> Result<(), RunFault>
    requires few { length files.now ≤ MAX_FILES }
    requires limit { limit ≤ MAX_READ }
    requires input { (S.state input.old).failed ≡ false }
    requires out { (W.state out.old).failed ≡ false }
    ensures { RunsSight S.state W.state (map F.bytes files.now) name.now limit input.old input.new out.old out.new result }
{
    let level = open_level(alloc, files, name, Reading::Signed)?;
    ended(answer_lines(&mut command_of(&level), input, limit, out))
}

// The command over a level's bits.
fn command_of<'a>(level: &Level<'a>) -> SightCommand<'a>
    ensures { result.reject ≡ reject_of level.now }
{
    let sectors = level.sectors().len() as u32;
    SightCommand {
        reject: Reject::of(level.reject(), sectors),
        sectors,
    }
}
