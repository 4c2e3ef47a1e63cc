//! The program `wadlens`: it reads its arguments, goes over the levels of each file in turn, and reports how that
//! ended.
#![tactic(auto)]

mod disk_folder;
mod jobs;

use demo_listings::Compared;
use disk_folder::DiskFolder;
use jobs::{atlas_of, cut_of, picture_of, report_of};
use le_rec::{Sink, ToWrite};
use lens_commands::{run_assemble, run_atlas, run_compare, run_listing, run_picture};
use lens_engines::Verdict;
use lens_reports::{End, Output, exit_status, run_cut, run_explain, run_job};
use lens_words::{
    AtlasWords, CompareWords, CutWords, PictureWords, Progress, Task, Telling, Unstarted,
    given_words, task_of,
};
use level_codes::ReportCode;
use line_io::{Disk, emit};
use std::io;
use std::io::{IsTerminal, Write};
use std::process::ExitCode;
use std::rt::{Env, Files};

// What is told besides, if a picture's name looks like a file's.
const NAME_FIRST: &[u8] =
    b"wadlens: the level's name comes before its files: wadlens picture NAME FILE...\n";

fn main(rt: HostRuntime) -> ExitCode {
    let errors = rt.stderr();
    let ended = do_words(&rt, errors, rt.stderr(), errors.is_terminal());
    if let Err(end) = &ended {
        if let Some(told) = end.message() {
            // If standard error fails too, the message is lost.
            let _ = rt.eprintln(format_args!("wadlens: {told}"));
        }
    }
    ExitCode::from(exit_status(&ended))
}

// Does what the arguments ask for. If standard error is a terminal, progress is shown unasked.
fn do_words<R: Env + Files + Input + Print + Eprint + AllocGlobal, E: Write + Drop>(
    rt: &R,
    errors: E,
    line: E,
    is_terminal: bool,
) -> Result<Verdict, End> {
    let words = match given_words(rt) {
        Ok(words) => words,
        Err(unstarted) => return Err(end_of(unstarted)),
    };
    match task_of(rt, &words) {
        Ok(task) => do_task(rt, task, errors, line, is_terminal),
        Err(unstarted) => Err(end_of(unstarted)),
    }
}

// How the run ends that the words don't start.
fn end_of(unstarted: Unstarted) -> End {
    match unstarted {
        Unstarted::Memory => End::Memory,
        Unstarted::Output => End::Output,
        Unstarted::Refused => End::Refused,
        Unstarted::Told => End::Told,
    }
}

// Does what is asked for.
fn do_task<R: Files + Input + Print + AllocGlobal, E: Write + Drop>(
    rt: &R,
    task: Task<'_>,
    errors: E,
    line: E,
    is_terminal: bool,
) -> Result<Verdict, End> {
    match task {
        Task::Tell(telling) => {
            let shown = (telling.progress || is_terminal).then_some(line);
            if telling.quiet {
                tell(rt, telling, io::sink(), errors, shown)
            } else {
                tell(rt, telling, io::writer(rt), errors, shown)
            }
        }
        Task::Atlas(words) => {
            let shown = (words.progress || is_terminal).then_some(line);
            make_atlas(rt, words, errors, shown)
        }
        Task::Explain(code) => explain(rt, code),
        Task::Cut(words) => cut(rt, &words, errors),
        Task::Draw(words) => draw(rt, &words, errors),
        Task::Compare(words) => compare(rt, &words, errors),
        Task::List(path) => list(rt, path, errors),
        Task::Assemble => assemble(rt, errors),
    }
}

// Reports on files.
fn tell<R: Files + Input + AllocGlobal, O: Write + Drop, E: Write + Drop>(
    rt: &R,
    telling: Telling<'_>,
    output: O,
    errors: E,
    shown: Option<E>,
) -> Result<Verdict, End> {
    let files = telling.files;
    let job = report_of(telling.report, &telling.judging, files);
    let mut output = Output::new(rt.alloc(), output)?;
    let mut told = ToWrite::new(errors);
    let mut watch = Progress::new(shown);
    run_job(
        rt.alloc(),
        &job,
        &Disk(rt),
        rt.reader(),
        &mut output,
        &mut told,
        &mut watch,
    )
}

// Makes an atlas.
fn make_atlas<R: Files + Input + AllocGlobal, E: Write + Drop>(
    rt: &R,
    words: AtlasWords<'_>,
    errors: E,
    shown: Option<E>,
) -> Result<Verdict, End> {
    let folder = words.folder;
    let job = atlas_of(words);
    run_atlas(
        rt.alloc(),
        &job,
        &Disk(rt),
        rt.reader(),
        &mut DiskFolder::new(rt, folder),
        &mut ToWrite::new(errors),
        &mut Progress::new(shown),
    )
}

// Explains a code, or lists all.
fn explain<R: Print + AllocGlobal>(rt: &R, code: Option<ReportCode>) -> Result<Verdict, End> {
    let mut output = Output::new(rt.alloc(), io::writer(rt))?;
    run_explain(code, &mut output)
}

// Cuts a level out.
fn cut<R: Files + Print + AllocGlobal, E: Write + Drop>(
    rt: &R,
    words: &CutWords<'_>,
    errors: E,
) -> Result<Verdict, End> {
    let mut output = Output::new(rt.alloc(), io::writer(rt))?;
    let mut told = ToWrite::new(errors);
    run_cut(
        rt.alloc(),
        cut_of(words),
        words.path.as_bytes(),
        &Disk(rt),
        &mut output,
        &mut told,
    )
}

// Draws a level.
fn draw<R: Files + Print + AllocGlobal, E: Write + Drop>(
    rt: &R,
    words: &PictureWords<'_>,
    errors: E,
) -> Result<Verdict, End> {
    let mut output = Output::new(rt.alloc(), io::writer(rt))?;
    let mut told = ToWrite::new(errors);
    let ended = run_picture(
        rt.alloc(),
        &picture_of(words),
        &words.files,
        &Disk(rt),
        &mut output,
        &mut told,
    );
    if matches!(ended, Err(End::Refused)) && words.has_file_as_name() && !told.failed() {
        // If standard error fails, the hint is lost.
        let _ = emit(&mut told, NAME_FIRST);
    }
    ended
}

// Compares two demo files.
fn compare<R: Files + Print + AllocGlobal, E: Write + Drop>(
    rt: &R,
    words: &CompareWords<'_>,
    errors: E,
) -> Result<Verdict, End> {
    let what = if words.commands {
        Compared::Commands
    } else {
        Compared::Everything
    };
    let mut output = Output::new(rt.alloc(), io::writer(rt))?;
    let mut told = ToWrite::new(errors);
    run_compare(
        rt.alloc(),
        what,
        words.path_a.as_bytes(),
        words.path_b.as_bytes(),
        &Disk(rt),
        &mut output,
        &mut told,
    )
}

// Lists a demo file.
fn list<R: Files + Print + AllocGlobal, E: Write + Drop>(
    rt: &R,
    path: &str,
    errors: E,
) -> Result<Verdict, End> {
    let mut output = Output::new(rt.alloc(), io::writer(rt))?;
    let mut told = ToWrite::new(errors);
    run_listing(
        rt.alloc(),
        path.as_bytes(),
        &Disk(rt),
        &mut output,
        &mut told,
    )
}

// Puts a demo together from its listing on standard input.
fn assemble<R: Input + Print + AllocGlobal, E: Write + Drop>(
    rt: &R,
    errors: E,
) -> Result<Verdict, End> {
    let mut output = Output::new(rt.alloc(), io::writer(rt))?;
    let mut told = ToWrite::new(errors);
    run_assemble(rt.alloc(), rt.reader(), &mut output, &mut told)
}
