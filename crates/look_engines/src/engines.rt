//! The engine of each command.

pub mod audit;
pub mod blocks;
pub mod census;
pub mod demo;
pub mod extract;
pub mod levels;
pub mod lmp;
pub mod lumps;
pub mod points;
pub mod show;
pub mod sight;

ghost use Rattle.std.specs.Prelude.{◌≡◌, ◌≤◌, false, length, map, string_bytes};
ghost use Rattle.wad_dir.specs.declared.set.TheConstants.{MAX_FILES};
ghost use Rattle.look_engines.specs.RunsJob.{RunsJob};
ghost use Rattle.look_engines.specs.Runs.{done};

use crate::command::{Cmd, Job};
use crate::fault::RunFault;
use audit::audit_text;
use blocks::blocks;
use census::census_text;
use demo::demo_text;
use extract::extract;
use le_rec::{Sink, Source};
use levels::levels;
use line_io::MAX_READ;
use lmp::lmp;
use lumps::lumps;
use points::points;
use show::show;
use sight::sight;
use std::alloc::Allocator;
use wad_dir::AsBytes;

/// The most bytes of line input.
pub const MAX_INPUT: u64 = 16_777_216;

/// Runs the command of the words' job over the bytes of its files. The result is true if no fault was found. For `lmp` its file
/// is the input, and `files` isn't looked at.
pub fn run<A: Allocator + Copy, F: Allocator, B: AsBytes, S: Source, W: Sink>(
    alloc: A,
    words: &[String<F>],
    job: Job,
    files: &[B],
    input: &mut S,
    out: &mut W,
) -> Result<bool, RunFault>
    requires few { length files.now ≤ MAX_FILES }
    requires input { (S.state input.old).failed ≡ false }
    requires out { (W.state out.old).failed ≡ false }
    ensures { RunsJob S.state W.state (map string_bytes words.now) job (map B.bytes files.now) input.old input.new out.old out.new result }
{
    let name = job.name(words);
    let reading = job.reading();
    match job.command {
        Cmd::Lumps => done(lumps(alloc, files, out)),
        Cmd::Levels => done(levels(alloc, files, out)),
        Cmd::Show => done(show(alloc, files, name, reading, out)),
        Cmd::Audit => audit_text(alloc, files, name, reading, out),
        Cmd::Points => done(points(alloc, files, name, reading, input, MAX_INPUT, out)),
        Cmd::Census => done(census_text(alloc, files, name, reading, input, MAX_INPUT, out)),
        Cmd::Sight => done(sight(alloc, files, name, input, MAX_INPUT, out)),
        Cmd::Blocks => done(blocks(alloc, files, name, reading, input, MAX_INPUT, out)),
        Cmd::Extract => done(extract(alloc, files, name, out)),
        Cmd::Demo => done(demo_text(alloc, files, name, out)),
        Cmd::Lmp => done(lmp(input, MAX_READ, out)),
    }
}

// The end of a command that finds no faults.
fn done(ended: Result<(), RunFault>) -> Result<bool, RunFault>
    ensures { result ≡ done ended }
{
    match ended {
        Ok(()) => Ok(true),
        Err(fault) => Err(fault),
    }
}
