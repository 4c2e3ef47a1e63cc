//! Runs what the arguments ask for, over any files, reader and writer.
ghost use Rattle.std.specs.Prelude.{◌≡◌, ◌≤◌, ◌⊎◌, Err, length, map, string_bytes};
ghost use Rattle.wad_dir.specs.declared.set.TheConstants.{MAX_FILES};
ghost use Rattle.look_engines.specs.Opening.{bytes_of};
ghost use Rattle.look_engines.specs.Words.{IsJob};
ghost use Rattle.look_engines.specs.declared.fault.RunFault.TheVariants.{Memory, Write as WriteFault};
ghost use Rattle.wadlook.specs.Program.{DoesWords, IsStopped, ListsPath, RunsFiles, program_end};
ghost use Rattle.wadlook.specs.Tied.{file_source, tied_sink, tied_source};

use crate::block_source::BlockSource;
use crate::files::read_paths;
use crate::refusal::ProgramRefusal;
use le_rec::{FromRead, ToWrite};
use line_io::{FilePath, Storage, TiedReader, TiedWriter};
use look_engines::{Cmd, Job, RunFault, job, run};
use std::alloc::Global;
use std::io::{Read, Write};

/// Does what the arguments ask for. The result is true if no fault was found.
pub fn do_words<D: Storage, I: Read + Drop, O: Write + Drop>(
    alloc: Global,
    words: &[String],
    storage: &D,
    reader: I,
    writer: O,
) -> Result<bool, ProgramRefusal>
    ensures { DoesWords (tied_source I O I.remaining) (file_source D.File D.File.remaining) (tied_sink O)
        (D.held storage.now) (I.remaining reader) (map string_bytes words.now) result }
{
    let Some(job) = job(words) else {
        return Err(ProgramRefusal::Usage);
    };
    if job.command == Cmd::Lmp {
        return list_file(alloc, words, job, storage, writer);
    }
    let files = read_paths(alloc, storage, job.paths(words))?;
    run_files(alloc, words, job, &files, reader, writer)
}

// Runs the command over its files, with the input and the output tied to one another.
fn run_files<I: Read + Drop, O: Write + Drop>(
    alloc: Global,
    words: &[String],
    job: Job,
    files: &[Vec<u8>],
    reader: I,
    writer: O,
) -> Result<bool, ProgramRefusal>
    requires few { length files.now ≤ MAX_FILES }
    ensures { (result ≡ Err (ProgramRefusal.Run Memory)) ⊎ RunsFiles (tied_source I O I.remaining) (tied_sink O)
        (I.remaining reader) (map string_bytes words.now) job (bytes_of files.now) result }
{
    let Ok(output) = TiedWriter::new(alloc, writer) else {
        return Err(ProgramRefusal::Run(RunFault::Memory));
    };
    let mut input = FromRead::new(TiedReader::new(reader, &output));
    let mut out = ToWrite::new(&output);
    let outcome = run(alloc, words, job, files, &mut input, &mut out);
    program_end(closed(&output, outcome))
}

// Lists the demo in the job's file while it is read. Standard input isn't used.
fn list_file<D: Storage, O: Write + Drop>(
    alloc: Global,
    words: &[String],
    job: Job,
    storage: &D,
    writer: O,
) -> Result<bool, ProgramRefusal>
    requires { IsJob (map string_bytes words.now) job }
    ensures { IsStopped (D.held storage.now) (map string_bytes words.now) job result
        ⊎ ListsPath (file_source D.File D.File.remaining) (tied_sink O) (D.held storage.now) (map string_bytes words.now) job result }
{
    let paths = job.paths(words);
    let Ok(file) = storage.open(paths[0].path_bytes()) else {
        return Err(ProgramRefusal::Unreadable(1));
    };
    let Ok(mut demo) = BlockSource::new(alloc, file) else {
        return Err(ProgramRefusal::Run(RunFault::Memory));
    };
    let Ok(output) = TiedWriter::new(alloc, writer) else {
        return Err(ProgramRefusal::Run(RunFault::Memory));
    };
    let mut listing = ToWrite::new(&output);
    let no_files: &[Vec<u8>] = &[];
    let ended = run(alloc, words, job, no_files, &mut demo, &mut listing);
    program_end(closed(&output, ended))
}

// The outcome of a run, or `Write` if the output can't be flushed. That includes a flush that failed before a read, which
// the run saw as a failed read.
fn closed<O: Write + Drop>(
    output: &TiedWriter<O>,
    outcome: Result<bool, RunFault>,
) -> Result<bool, RunFault>
    ensures { (result ≡ outcome) ⊎ (result ≡ Err WriteFault) }
{
    match output.close() {
        Ok(()) => outcome,
        Err(_) => Err(RunFault::Write),
    }
}

// The end of a run, as that of the program.
fn program_end(ended: Result<bool, RunFault>) -> Result<bool, ProgramRefusal>
    ensures { result ≡ program_end ended }
{
    match ended {
        Ok(clean) => Ok(clean),
        Err(fault) => Err(ProgramRefusal::Run(fault)),
    }
}
