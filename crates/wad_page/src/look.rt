//! Commands of `wadlook` over files in memory.
ghost use Rattle.std.specs.Prelude.{◌≡◌, ◌<◌, ◌≤◌, false, length, map, string_bytes};
ghost use Rattle.wad_dir.specs.declared.set.TheConstants.{MAX_FILES};
ghost use Rattle.wad_page.specs.Look.{DoesLook, RunsFiles};

use crate::parts::{SizedBytes, read_words, slices};
use crate::refusal::{PageRefusal, page_end};
use le_rec::Sink;
use look_engines::{Cmd, Job, RunFault, job, run};
use memory_streams::FromSlice;
use std::alloc::Allocator;

/// Does what the words ask for over the files and the input. The result is true if no fault was found.
pub fn do_words<A: Allocator + Copy, W: Sink>(
    alloc: A,
    words: SizedBytes<'_>,
    files: SizedBytes<'_>,
    input: &[u8],
    out: &mut W,
) -> Result<bool, PageRefusal>
    requires { (W.state out.old).failed ≡ false }
    ensures { DoesLook W.state words.entry files.entry input.now out.old out.new result }
{
    let texts = read_words(alloc, words)?;
    let Some(job) = job(&texts) else {
        return Err(PageRefusal::Usage);
    };
    let Some(lent) = slices(alloc, files)? else {
        return Err(PageRefusal::Usage);
    };
    if lent.len() != job.paths(&texts).len() {
        return Err(PageRefusal::Usage);
    }
    page_end(run_files(alloc, &texts, job, &lent, input, out))
}

// Runs the job's command over its files. `lmp` reads its file as the input.
fn run_files<A: Allocator + Copy, W: Sink>(
    alloc: A,
    words: &[String<A>],
    job: Job,
    files: &[&[u8]],
    input: &[u8],
    out: &mut W,
) -> Result<bool, RunFault>
    requires few { length files.now ≤ MAX_FILES }
    requires some { 0 < length files.now }
    requires out { (W.state out.old).failed ≡ false }
    ensures { RunsFiles W.state (map string_bytes words.now) job (map (λ file. file.now) files.now) input.now out.old out.new result }
{
    let given = if job.command == Cmd::Lmp {
        files[0]
    } else {
        input
    };
    let mut source = FromSlice::new(given);
    run(alloc, words, job, files, &mut source, out)
}
