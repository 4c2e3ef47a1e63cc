//! The words of `wadlens` over files and an input in memory.

ghost use Rattle.std.specs.Prelude.{◌≡◌, IfOk, OnOk};
ghost use Rattle.wadlook_c.specs.Run.{AddsFile, AreParts, FillsFront, IsMistakenRun, RunEnds, RunsFiles, RunsInput, RunsOver, is_over, is_reached, run_status, within};

use crate::at_most::AtMost;
use crate::question::{Asked, WadlookQuestion, asked_by};
use lens_calls::{LensFault, LensRequest, answer_lens, answer_listing};
use lens_engines::Verdict;
use lens_reports::status;
use std::alloc::{AllocError, Global};

/// A file: the path by which answers name it, and its bytes.
#[repr(C)]
#[derive(Clone, Copy)]
pub struct WadlookFile<'f> {
    pub path: &'f [u8],
    pub bytes: &'f [u8],
}

/// How many bytes were answered, and how many the program writes to standard error.
#[repr(C)]
#[derive(Clone, Copy)]
pub struct WadlookTold {
    pub answer: usize,
    pub messages: usize,
}

/// A growth was refused.
const NO_MEMORY: u32 = 3;
/// The limit of what may be answered was reached.
const STOPPED: u32 = 4;
/// The question has no meaning, or isn't asked of so many files.
const MISTAKEN: u32 = 5;

/// Does what is asked of the files, or of the input. As much of the answer as there is room for goes to the front of `answer`,
/// and as much of what the program writes to standard error to the front of `messages`. How long both are goes to `told`. It
/// returns the program's status: 0, or 1 at a fault, or 2 where something is refused or not judged, or 3 where a growth was
/// refused. It is 4 where the question's limit was reached, and 5 where the question has no meaning. At 3 and 4 only a front of
/// the answer was made.
#[unsafe(no_mangle)]
pub extern "C" fn wadlook_run(
    alloc: Global,
    question: &WadlookQuestion<'_>,
    files: &[WadlookFile<'_>],
    input: &[u8],
    answer: &mut [u8],
    messages: &mut [u8],
    told: &mut WadlookTold,
) -> u32
    ensures { RunEnds question.now files.now input.now answer.old answer.new messages.old messages.new told.new result }
{
    match run_over(alloc, question, files, input) {
        Ok(ran) => {
            let whole_answer = within(ran.answer.taken(), question.limit);
            let all_messages = within(ran.messages.taken(), question.limit);
            *told = WadlookTold {
                answer: whole_answer.len(),
                messages: all_messages.len(),
            };
            fill_front(whole_answer, answer);
            fill_front(all_messages, messages);
            run_status(&ran, question.limit)
        }
        Err(_) => {
            *told = WadlookTold {
                answer: 0,
                messages: 0,
            };
            NO_MEMORY
        }
    }
}

// What a run wrote, and how it ended.
#[derive(Drop)]
struct Ran {
    answer: AtMost,
    messages: AtMost,
    outcome: Result<Verdict, LensFault>,
}

// Runs into sinks. An Err where there is no memory for the list of files.
fn run_over(
    alloc: Global,
    question: &WadlookQuestion<'_>,
    files: &[WadlookFile<'_>],
    input: &[u8],
) -> Result<Ran, AllocError>
    ensures { IfOk result (RunsOver question.now files.now input.now) }
{
    let Some(asked) = asked_by(question) else {
        return Ok(mistaken(alloc));
    };
    match &asked {
        Asked::OfFiles(request) => run_files(alloc, request, question.limit, files),
        Asked::OfInput => {
            if files.is_empty() {
                Ok(run_input(alloc, question.limit, input))
            } else {
                Ok(mistaken(alloc))
            }
        }
    }
}

// The end of a question without a meaning.
fn mistaken(alloc: Global) -> Ran
    ensures { IsMistakenRun result }
{
    Ran {
        answer: AtMost::new(alloc, 0),
        messages: AtMost::new(alloc, 0),
        outcome: Err(LensFault::Usage),
    }
}

// Does what is asked of files.
fn run_files(
    alloc: Global,
    request: &LensRequest<'_>,
    limit: usize,
    files: &[WadlookFile<'_>],
) -> Result<Ran, AllocError>
    ensures { IfOk result (RunsFiles request.now files.now) }
{
    let parts = parts_of(alloc, files)?;
    let mut messages = AtMost::new(alloc, limit);
    let (answer, outcome) = answer_lens(
        alloc,
        request,
        &parts.paths,
        &parts.bytes,
        AtMost::new(alloc, limit),
        &mut messages,
    );
    Ok(Ran {
        answer,
        messages,
        outcome,
    })
}

// Puts a demo together from the input.
fn run_input(alloc: Global, limit: usize, input: &[u8]) -> Ran
    ensures { RunsInput input.now result }
{
    let mut answer = AtMost::new(alloc, limit);
    let mut messages = AtMost::new(alloc, limit);
    let outcome = answer_listing(alloc, input, &mut answer, &mut messages);
    Ran {
        answer,
        messages,
        outcome,
    }
}

// The paths of files, and their bytes.
#[derive(Drop)]
struct Parts<'f> {
    paths: Vec<&'f [u8]>,
    bytes: Vec<&'f [u8]>,
}

// Those of these files.
fn parts_of<'f>(alloc: Global, files: &[WadlookFile<'f>]) -> Result<Parts<'f>, AllocError>
    ensures { IfOk result (AreParts files.now) }
{
    let mut parts = Parts {
        paths: Vec::new(alloc),
        bytes: Vec::new(alloc),
    };
    for i in 0..files.len() {
        push_file(&mut parts, &files[i])?;
    }
    Ok(parts)
}

// Those of one file more.
fn push_file<'f>(parts: &mut Parts<'f>, file: &WadlookFile<'f>) -> Result<(), AllocError>
    ensures { OnOk result (AddsFile file.now parts.old parts.new) }
{
    parts.paths.push(file.path)?;
    parts.bytes.push(file.bytes)?;
    Ok(())
}

// The status of a run.
fn run_status(ran: &Ran, limit: usize) -> u32
    ensures { result ≡ run_status limit ran.now }
{
    if is_over(ran, limit) {
        return STOPPED;
    }
    match ran.outcome {
        Ok(verdict) => u32::from(status(verdict)),
        Err(LensFault::Usage) => MISTAKEN,
        Err(LensFault::Full) => {
            if is_reached(ran, limit) {
                STOPPED
            } else {
                NO_MEMORY
            }
        }
    }
}

// Whether more was made than the limit allows.
fn is_over(ran: &Ran, limit: usize) -> bool
    ensures { result ≡ is_over limit ran.now }
{
    limit > 0 && (ran.answer.taken().len() > limit || ran.messages.taken().len() > limit)
}

// Whether the answer or the messages have as many bytes as the limit allows.
fn is_reached(ran: &Ran, limit: usize) -> bool
    ensures { result ≡ is_reached limit ran.now }
{
    limit > 0 && (ran.answer.taken().len() >= limit || ran.messages.taken().len() >= limit)
}

// The front of a text that the limit allows: all of it where there is none.
fn within(text: &[u8], limit: usize) -> &[u8]
    ensures { result.now ≡ within limit text.now }
{
    if limit == 0 || text.len() <= limit {
        text
    } else {
        &text[..limit]
    }
}

// Copies as much of a text as there is room for to the front of a slice.
fn fill_front(text: &[u8], to: &mut [u8])
    ensures { FillsFront text.now to.old to.new }
{
    let count = text.len().min(to.len());
    to[..count].copy_from_slice(&text[..count]);
}
