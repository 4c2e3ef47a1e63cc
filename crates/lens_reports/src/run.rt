//! The run of a job, over any files, reader and writers.

ghost use Rattle.std.specs.Prelude.{◌≡◌, [], false, map, IfOk, IfErr};
ghost use Rattle.std.specs.Io.KnownBytes.{Keeps};
ghost use Rattle.line_io.specs.Writes.{Writes};
ghost use Rattle.lens_reports.specs.Job.{EndsTelling, HoldsList, ListUnread, RunsJob, TellsPaths, TellsRest, closing_line, output_end, stop_end, unlooked_line};
ghost use Rattle.lens_reports.specs.Output.{is_closed, output_state};
ghost use Rattle.lens_reports.specs.Run.{AreSound};

use crate::bases::{read_bases, refuse_base, wads_of};
use crate::end::End;
use crate::files::{ReadFault, Stored, read_input, read_path};
use crate::job::ReportJob;
use crate::output::Output;
use crate::paths::{all_paths, word_paths};
use crate::tell::{ReportKind, ReportSum, Request, Stop, tell_paths, write_refusal};
use le_rec::{EndFault, Sink};
use lens_engines::{Base, Totals, Unlisted, Verdict, write_totals};
use lens_texts::Watch;
use line_io::{IoFault, Storage, emit};
use std::alloc::Global;
use std::io::{Read, Write};

/// Does a job, and returns the gravest verdict. On Ok the buffer is empty.
pub fn run_job<S: Storage, I: Read + Drop, O: Write + Drop, E: Sink, P: Watch>(
    alloc: Global,
    job: &ReportJob<'_>,
    storage: &S,
    reader: I,
    out: &mut Output<O>,
    errors: &mut E,
    watch: &mut P,
) -> Result<Verdict, End>
    requires { AreSound (output_state O.contents out.old) (E.state errors.old) }
    ensures { RunsJob (S.held storage.now) (I.remaining reader) job.now O.contents out.old out.new
        (E.state errors.old) (E.state errors.new) result }
{
    let files = Stored(storage);
    let list = match read_list(alloc, job, storage, reader) {
        Ok(list) => list,
        Err(ReadFault::Memory) => return Err(End::Memory),
        Err(ReadFault::Refused(refusal)) => {
            // If standard error fails too, the message is lost.
            let _ = write_refusal(job.list_name(), refusal, errors);
            return Err(End::Refused);
        }
    };
    let Ok(paths) = all_paths(alloc, &job.files, &list, job.list_end) else {
        return Err(End::Memory);
    };
    let Ok(base_paths) = word_paths(alloc, job.bases.paths()) else {
        return Err(End::Memory);
    };
    let held = match read_bases(alloc, &files, &base_paths) {
        Ok(held) => held,
        Err(first) => return Err(refuse_base(&base_paths, first, errors)),
    };
    let Ok(wads) = wads_of(alloc, &held) else {
        return Err(End::Memory);
    };
    let Some(base) = Base::of(&wads) else {
        unreachable!();
    };
    run_paths(alloc, job.over(&base), &files, &paths, out, errors, watch)
}

// Reports on the files under all paths, and then the totals.
fn run_paths<S: Storage, O: Write + Drop, E: Sink, P: Watch>(
    alloc: Global,
    asked: Request<'_>,
    files: &Stored<'_, S>,
    paths: &[&[u8]],
    out: &mut Output<O>,
    errors: &mut E,
    watch: &mut P,
) -> Result<Verdict, End>
    requires { AreSound (output_state O.contents out.old) (E.state errors.old) }
    ensures { TellsPaths (S.held files.now.0.now) asked.entry (map (λ path. path.now) paths.now) O.contents out.old out.new
        (E.state errors.old) (E.state errors.new) result }
{
    let told = tell_paths(alloc, files, asked, paths, out, errors, watch);
    watch.finish();
    match told {
        Ok(tally) => finish(asked, paths.len() as u64, &tally, out, errors),
        Err(stop) => Err(stop_end(stop, out)),
    }
}

/// The list of more paths of a job, empty where there is none.
pub fn read_list<S: Storage, I: Read + Drop>(
    alloc: Global,
    job: &ReportJob<'_>,
    storage: &S,
    reader: I,
) -> Result<Vec<u8>, ReadFault>
    ensures held { IfOk result (λ list. HoldsList (S.held storage.now) (I.remaining reader) job.now list.items) }
    ensures refused { IfErr result (ListUnread (S.held storage.now) (I.remaining reader) job.now) }
{
    match job.list {
        None => Ok(Vec::new(alloc)),
        Some("-") => read_input(Vec::new(alloc), reader),
        Some(path) => read_path(Vec::new(alloc), storage, path.as_bytes()),
    }
}

// Writes the totals of a check and flushes the buffer, and then writes which warnings weren't looked for.
fn finish<O: Write + Drop, E: Sink>(
    asked: Request<'_>,
    files: u64,
    tally: &ReportSum,
    out: &mut Output<O>,
    errors: &mut E,
) -> Result<Verdict, End>
    requires { AreSound (output_state O.contents out.old) (E.state errors.old) }
    ensures { EndsTelling O.contents (closing_line asked.entry files tally.now.totals) tally.now.totals.unlisted tally.now.verdict
        out.old out.new (E.state errors.old) (E.state errors.new) result }
{
    let found = write_totals_out(asked, files, tally, out)?;
    match write_unlooked(tally.totals.unlisted, errors) {
        Ok(()) => Ok(found),
        Err(_) => Err(End::Errors),
    }
}

// Writes the totals of a check, and flushes the buffer.
fn write_totals_out<O: Write + Drop>(
    asked: Request<'_>,
    files: u64,
    tally: &ReportSum,
    out: &mut Output<O>,
) -> Result<Verdict, End>
    requires { (output_state O.contents out.old).failed ≡ false }
    ensures { TellsRest O.contents (closing_line asked.entry files tally.now.totals) tally.now.verdict out.old out.new result }
{
    match write_last(asked, files, &tally.totals, out) {
        Ok(()) => write_rest(tally.verdict, out),
        Err(_) => Err(output_end(tally.verdict, out)),
    }
}

/// Writes which warnings weren't looked for, where there are some, and how to have them looked for.
pub fn write_unlooked<E: Sink>(unlisted: Unlisted, errors: &mut E) -> Result<(), IoFault>
    requires { (E.state errors.old).failed ≡ false }
    ensures { Writes (E.state errors.old) (E.state errors.new) (unlooked_line unlisted) result }
{
    if unlisted.is_none() {
        return emit(errors, b"");
    }
    emit(errors, b"wadlens: ")?;
    unlisted.write_note(errors)?;
    emit(errors, b"\n")
}

/// Flushes the buffer, and ends with the verdict.
pub fn write_rest<O: Write + Drop>(found: Verdict, out: &mut Output<O>) -> Result<Verdict, End>
    requires { (output_state O.contents out.old).failed ≡ false }
    ensures { TellsRest O.contents [] found out.old out.new result }
{
    match out.write_out() {
        Ok(()) => Ok(found),
        Err(EndFault) => Err(output_end(found, out)),
    }
}

/// Writes the totals of a check, and nothing for another command.
pub fn write_last<W: Sink>(
    asked: Request<'_>,
    files: u64,
    totals: &Totals,
    out: &mut W,
) -> Result<(), IoFault>
    requires { (W.state out.old).failed ≡ false }
    ensures { Writes (W.state out.old) (W.state out.new) (closing_line asked.entry files totals.now) result }
{
    let warnings = asked.judging.warnings;
    match asked.word {
        ReportKind::Check(_, form) => write_totals(form, files, warnings, totals, out),
        ReportKind::Survey | ReportKind::Demos(_) => emit(out, b""),
    }
}

// The end of a run that stopped. What was written before stays, and is flushed when the output is
// dropped.
fn stop_end<O: Write + Drop>(stop: Stop, out: &Output<O>) -> End
    ensures { result ≡ stop_end (is_closed out.now) stop }
{
    match stop {
        Stop::Output(found) => output_end(found, out),
        Stop::Errors => End::Errors,
        Stop::Memory => End::Memory,
    }
}

/// How a run ends whose output failed.
pub fn output_end<O: Write + Drop>(found: Verdict, out: &Output<O>) -> End
    ensures { result ≡ output_end (is_closed out.now) found }
{
    if out.is_closed() {
        End::Closed(found)
    } else {
        End::Output
    }
}
