//! The report on one file: the engine's text, or why it is refused.
ghost use Rattle.std.specs.Prelude.{◌≡◌, ◌++◌, [], codes, false, map, IfOk, IfErr, OnOk};
ghost use Rattle.line_io.specs.Writes.{Writes};
ghost use Rattle.lens_engines.specs.Objects.{refusal_text};
ghost use Rattle.lens_reports.specs.Run.{AreSound, ChecksBytes, LeavesBytes, LeavesLevels, OnBytesErrors, OnErrors, StopsAt, StopsPath, StopsRefusal, SurveysBytes};
ghost use Rattle.lens_reports.specs.Run.{TellsPath, TellsWord, ToldTo, WritesRefusal, no_tally, refusal_answer, refusal_line};
ghost use Rattle.lens_reports.specs.Run.{stop_after, tally_with};
ghost use Rattle.lens_reports.specs.declared.tell.ReportKind.TheVariants as word;

use crate::demos::tell_demos;
use crate::files::{ReadFault, RunFiles};
use le_rec::Sink;
use lens_engines::{
    FileRefusal, Judging, LevelsFault, Question, Totals, Verdict, check_file, refused_line,
    survey_file,
};
use lens_texts::{Form, HandOn, Watch, write_path};
use line_io::{IoFault, emit};
use std::alloc::Allocator;
use std::mem::replace;
use thiserror::Error;
use wad_dir::WadFault;

/// How many findings of one code in one level are shown by default.
pub const SHOWN: u64 = 20;

/// What is asked of each file.
#[derive(Clone, Copy, Debug, PartialEq, Eq)]
pub enum ReportKind {
    /// The findings, and the warnings if they are asked for, in a form. At most so many of one code in one level are shown; 0
    /// shows all.
    Check(u64, Form),
    /// An object for each level.
    Survey,
    /// The demos, in a form.
    Demos(Form),
}

/// What is asked of each file, and how its levels are judged. Demos ignore the latter.
#[derive(Clone, Copy)]
pub struct Request<'b> {
    pub word: ReportKind,
    pub judging: Judging<'b>,
}

/// What was found.
#[derive(Clone, Copy, Debug, PartialEq, Eq)]
pub struct ReportSum {
    /// The gravest verdict. A refused file counts as one that isn't judged.
    pub verdict: Verdict,
    /// The totals of `check`; none of a survey or of demos.
    pub totals: Totals,
}

/// Why a run stopped.
#[derive(Clone, Copy, Debug, PartialEq, Eq, Error)]
pub enum Stop {
    /// A growth was refused.
    #[error("no memory left")]
    Memory,
    /// What is answered can't be written. The gravest of what was found up to there.
    #[error("the output can't be written")]
    Output(Verdict),
    /// What is refused can't be told.
    #[error("what is refused can't be told")]
    Errors,
}

impl Stop {
    /// The same stop, after files with this verdict.
    fn after(self, before: Verdict) -> Stop
        ensures { result ≡ stop_after before self }
    {
        match self {
            Stop::Output(found) => Stop::Output(before.graver(found)),
            Stop::Memory | Stop::Errors => self,
        }
    }
}

/// Why the report on a file's bytes isn't whole.
#[derive(Clone, Copy, Debug, PartialEq, Eq, Error)]
pub enum BytesFault {
    /// They have no directory. Nothing was written.
    #[error("{0}")]
    NoWad(WadFault),
    /// What is answered can't be written. The gravest of what was found up to there.
    #[error("the output can't be written")]
    Output(Verdict),
    /// What is refused can't be told.
    #[error("what is refused can't be told")]
    Errors,
    /// A growth was refused.
    #[error("no memory left")]
    Memory,
}

impl BytesFault {
    ghost use Rattle.std.specs.Prelude.{◌≡◌};
    ghost use Rattle.lens_reports.specs.Run.{fault_of};

    // The fault of an engine that tells levels.
    fn from_engine(fault: LevelsFault) -> BytesFault
        ensures { result ≡ fault_of fault }
    {
        match fault {
            LevelsFault::NoWad(why) => BytesFault::NoWad(why),
            LevelsFault::Write(found) => BytesFault::Output(found),
            LevelsFault::Memory => BytesFault::Memory,
        }
    }
}

/// The tally of no file.
pub fn no_tally() -> ReportSum
    ensures { result ≡ no_tally }
{
    ReportSum {
        verdict: Verdict::Clean,
        totals: Totals::none(),
    }
}

impl ReportSum {
    /// Both together.
    pub fn with(self, other: ReportSum) -> ReportSum
        ensures { result ≡ tally_with self other }
    {
        ReportSum {
            verdict: self.verdict.graver(other.verdict),
            totals: self.totals.with(other.totals),
        }
    }
}

/// Reports on the file under each path, in order. The engine's text goes into `out`, and the reason of a refusal into `errors`.
/// Each file is freed before the next is opened.
pub fn tell_paths<A: Allocator + Copy, S: RunFiles, W: HandOn, E: Sink, P: Watch>(
    alloc: A,
    files: &S,
    asked: Request<'_>,
    paths: &[&[u8]],
    out: &mut W,
    errors: &mut E,
    watch: &mut P,
) -> Result<ReportSum, Stop>
    requires { AreSound (W.state out.old) (E.state errors.old) }
    ensures told { IfOk result (ToldTo (S.known files.now) asked.entry (W.state out.old) (E.state errors.old)
        (map (λ path. path.now) paths.now) (W.state out.new) (E.state errors.new)) }
    ensures sound { OnOk result (AreSound (W.state out.new) (E.state errors.new)) }
    ensures stopped { IfErr result (StopsAt (S.known files.now) asked.entry (map (λ path. path.now) paths.now)
        (W.state out.old) (E.state errors.old) (W.state out.new) (E.state errors.new)) }
    ensures handed { OnErrors result (W.held out.new ≡ []) }
{
    let mut sum = no_tally();
    let mut room = Vec::new(alloc);
    for (place, path) in paths.iter().enumerate() {
        let file = FileAt { files, place, path };
        match tell_path(alloc, asked, &file, &mut room, out, errors, watch) {
            Ok(tally) => sum = sum.with(tally),
            Err(stop) => return Err(stop.after(sum.verdict)),
        }
    }
    Ok(sum)
}

// A file of a run: the one at a place, under its path.
#[derive(Clone, Copy)]
struct FileAt<'f, S> {
    files: &'f S,
    place: usize,
    path: &'f [u8],
}

// Reports on a file. It is read into the memory of the one before it.
fn tell_path<A: Allocator + Copy, S: RunFiles, W: HandOn, E: Sink, P: Watch>(
    alloc: A,
    asked: Request<'_>,
    file: &FileAt<'_, S>,
    room: &mut Vec<u8, A>,
    out: &mut W,
    errors: &mut E,
    watch: &mut P,
) -> Result<ReportSum, Stop>
    requires { AreSound (W.state out.old) (E.state errors.old) }
    ensures told { IfOk result (TellsPath (S.known file.now.files.now file.now.place file.now.path.now) asked.entry file.now.path.now
        (W.state out.old) (W.state out.new) (E.state errors.old) (E.state errors.new)) }
    ensures sound { OnOk result (AreSound (W.state out.new) (E.state errors.new)) }
    ensures stopped { IfErr result (StopsPath (S.known file.now.files.now file.now.place file.now.path.now) asked.entry file.now.path.now
        (W.state out.old) (W.state out.new) (E.state errors.old) (E.state errors.new)) }
    ensures handed { OnErrors result (W.held out.new ≡ []) }
{
    let path = file.path;
    match file
        .files
        .read(file.place, path, replace(room, Vec::new(alloc)))
    {
        Ok(bytes) => {
            match tell_bytes(alloc, asked, path, bytes.as_slice(), out, errors, watch) {
                Ok(tally) => {
                    watch.add(alloc, bytes.as_slice());
                    *room = bytes.into_room(alloc);
                    Ok(tally)
                }
                Err(BytesFault::NoWad(why)) => {
                    tell_refusal(
                        asked.word,
                        path,
                        FileRefusal::NoWad(why),
                        out,
                        errors,
                        watch,
                    )
                }
                Err(BytesFault::Output(found)) => Err(Stop::Output(found)),
                Err(BytesFault::Errors) => Err(Stop::Errors),
                Err(BytesFault::Memory) => Err(Stop::Memory),
            }
        }
        Err(ReadFault::Refused(refusal)) => {
            tell_refusal(asked.word, path, refusal, out, errors, watch)
        }
        Err(ReadFault::Memory) => Err(Stop::Memory),
    }
}

/// Reports that a file is refused, and why. What was answered before is handed on first.
pub fn tell_refusal<W: HandOn, E: Sink, P: Watch>(
    word: ReportKind,
    path: &[u8],
    refusal: FileRefusal,
    out: &mut W,
    errors: &mut E,
    watch: &mut P,
) -> Result<ReportSum, Stop>
    requires { AreSound (W.state out.old) (E.state errors.old) }
    ensures told { IfOk result (WritesRefusal word path.now refusal
        (W.state out.old) (W.state out.new) (E.state errors.old) (E.state errors.new)) }
    ensures sound { OnOk result (AreSound (W.state out.new) (E.state errors.new)) }
    ensures stopped { IfErr result (StopsRefusal word path.now refusal
        (W.state out.old) (W.state out.new) (E.state errors.old) (E.state errors.new)) }
    ensures handed { OnErrors result (W.held out.new ≡ []) }
{
    // Before anything else is shown: both ends may be one terminal.
    watch.clear();
    if out.hand_on().is_err() {
        return Err(Stop::Output(Verdict::Unjudged));
    }
    if write_refusal(path, refusal, errors).is_err() {
        return Err(Stop::Errors);
    }
    if answer_refusal(word, path, refusal, out).is_err() {
        return Err(Stop::Output(Verdict::Unjudged));
    }
    watch.add_refused();
    Ok(ReportSum {
        verdict: Verdict::Unjudged,
        totals: no_tally().totals,
    })
}

/// Writes why a file is refused: `wadlens: PATH: TEXT`.
pub fn write_refusal<E: Sink>(
    path: &[u8],
    refusal: FileRefusal,
    errors: &mut E,
) -> Result<(), IoFault>
    requires { (E.state errors.old).failed ≡ false }
    ensures { Writes (E.state errors.old) (E.state errors.new) (refusal_line path.now refusal) result }
{
    emit(errors, b"wadlens: ")?;
    write_path(path, errors)?;
    write_reason(refusal, errors)
}

// `: TEXT`
fn write_reason<E: Sink>(refusal: FileRefusal, errors: &mut E) -> Result<(), IoFault>
    requires { (E.state errors.old).failed ≡ false }
    ensures { Writes (E.state errors.old) (E.state errors.new)
        (codes ": " ++ (refusal_text refusal ++ codes "\n")) result }
{
    emit(errors, b": ")?;
    emit(errors, refusal.text())?;
    emit(errors, b"\n")
}

// Where objects are asked for a refused file has one.
fn answer_refusal<W: Sink>(
    word: ReportKind,
    path: &[u8],
    refusal: FileRefusal,
    out: &mut W,
) -> Result<(), IoFault>
    requires { (W.state out.old).failed ≡ false }
    ensures { Writes (W.state out.old) (W.state out.new) (refusal_answer word path.now refusal) result }
{
    match word {
        ReportKind::Survey
        | ReportKind::Check(_, Form::Objects)
        | ReportKind::Demos(Form::Objects) => refused_line(path, refusal, out),
        ReportKind::Check(_, Form::Lines) | ReportKind::Demos(Form::Lines) => emit(out, b""),
    }
}

/// Reports on a file's bytes.
pub fn tell_bytes<A: Allocator + Copy, W: HandOn, E: Sink, P: Watch>(
    alloc: A,
    asked: Request<'_>,
    path: &[u8],
    bytes: &[u8],
    out: &mut W,
    errors: &mut E,
    watch: &mut P,
) -> Result<ReportSum, BytesFault>
    requires { AreSound (W.state out.old) (E.state errors.old) }
    ensures told { IfOk result (TellsWord asked.entry.word path.now bytes.now asked.entry.judging (W.state out.old) (W.state out.new)
        (E.state errors.old) (E.state errors.new)) }
    ensures sound { OnOk result (AreSound (W.state out.new) (E.state errors.new)) }
    ensures left { IfErr result (LeavesBytes W.state E.state asked.entry.word path.now bytes.now asked.entry.judging
        out.old out.new errors.old errors.new) }
    ensures handed { OnBytesErrors result (W.held out.new ≡ []) }
{
    match asked.word {
        ReportKind::Survey => survey_bytes(alloc, path, bytes, asked.judging, out),
        ReportKind::Check(most, form) => {
            let question = Question {
                form,
                path,
                most,
                judging: asked.judging,
            };
            check_bytes(alloc, &question, bytes, out)
        }
        ReportKind::Demos(form) => tell_demos(alloc, form, path, bytes, out, errors, watch),
    }
}

// The objects of a file's levels.
fn survey_bytes<A: Allocator + Copy, W: Sink>(
    alloc: A,
    path: &[u8],
    bytes: &[u8],
    judging: Judging<'_>,
    out: &mut W,
) -> Result<ReportSum, BytesFault>
    requires { (W.state out.old).failed ≡ false }
    ensures told { IfOk result (SurveysBytes path.now bytes.now judging.entry (W.state out.old) (W.state out.new)) }
    ensures sound { OnOk result ((W.state out.new).failed ≡ false) }
    ensures left { IfErr result (LeavesLevels W.state word.Survey path.now bytes.now judging.entry out.old out.new) }
{
    match survey_file(alloc, path, bytes, judging, out) {
        Ok(verdict) => Ok(ReportSum {
            verdict,
            totals: no_tally().totals,
        }),
        Err(fault) => Err(BytesFault::from_engine(fault)),
    }
}

// The lines of a file's levels.
fn check_bytes<A: Allocator + Copy, W: Sink>(
    alloc: A,
    question: &Question<'_>,
    bytes: &[u8],
    out: &mut W,
) -> Result<ReportSum, BytesFault>
    requires { (W.state out.old).failed ≡ false }
    ensures told { IfOk result (ChecksBytes question.now.most question.now.form question.now.path.now bytes.now question.now.judging
        (W.state out.old) (W.state out.new)) }
    ensures sound { OnOk result ((W.state out.new).failed ≡ false) }
    ensures left { IfErr result (LeavesLevels W.state (word.Check question.now.most question.now.form) question.now.path.now bytes.now
        question.now.judging out.old out.new) }
{
    match check_file(alloc, question, bytes, out) {
        Ok(totals) => Ok(ReportSum {
            verdict: totals.verdict(),
            totals,
        }),
        Err(fault) => Err(BytesFault::from_engine(fault)),
    }
}
