//! Questions to `wadlens` over files in memory, as a host asks them by numbers.

ghost use Rattle.std.specs.Prelude.{◌≡◌, ◌↔◌, IfErr, IfOk, Some};
ghost use Rattle.lens_reports.specs.Run.{AreSound};
ghost use Rattle.wad_page.specs.Lens.{AreAsked, Asks, AsksWarnings, AsksWord, DoesQuestion, RefusesAsked, failing_of, lens_message, reading_of};
ghost use Rattle.lens_engines.specs.declared.judging.Warnings.{Warnings};
ghost use Rattle.lens_calls.specs.declared.asked.LensRequest.{LensRequest};
ghost use Rattle.lens_calls.specs.declared.asked.LensWord.{LensWord};
ghost use Rattle.memory_streams.specs.ToVec.{state_of as vec_state};

use crate::parts::{SizedBytes, slices};
use lens_calls::{LensFault, LensRequest, LensWord, answer_lens};
use lens_engines::{Rules, Verdict, Warnings};
use lens_reports::{CutAsked, ReportKind};
use lens_texts::Form;
use level_codes::{CodeSet, Group};
use map_level::Reading;
use memory_streams::ToVec;
use std::alloc::Allocator;

/// A question about files, in the host's layout.
#[repr(C)]
#[derive(Clone, Copy)]
pub struct LensQuestion {
    /// Of `check` how many findings or warnings of one code in one level are shown at most. Of `cut` the entry of the level's label.
    pub number: u64,
    /// 0 `check`, 1 `survey`, 2 `demos`, 3 `demos --json`, 4 `cut`, 5 `check --json`, 6 `listing`.
    pub command: u8,
    /// 0 to read indexes as signed numbers, else they are read as numbers from 0 to 65535. Demos, `cut` and `listing` ignore it.
    pub wide: u8,
    /// 0 no warnings, 1 `--map`, 2 `--map --strict`. Demos, `cut` and `listing` ignore it.
    pub warnings: u8,
    /// How many of the files are base files: the first ones, 63 at most. They aren't reported on. It is 0 for `cut` and `listing`.
    pub bases: u8,
}

// What is asked of which files.
#[derive(Drop)]
struct Asked<'f, A: Allocator> {
    request: LensRequest<'static>,
    paths: Vec<&'f [u8], A>,
    files: Vec<&'f [u8], A>,
}

/// Answers the question over the files, one for each path, into vectors.
pub fn lens_into<A: Allocator + Copy>(
    alloc: A,
    question: &LensQuestion,
    paths: SizedBytes<'_>,
    files: SizedBytes<'_>,
    out: ToVec<A>,
    errors: &mut ToVec<A>,
) -> (ToVec<A>, Result<Verdict, LensFault>)
    requires { AreSound (vec_state out) (vec_state errors.old) }
    ensures { DoesQuestion question.now paths.entry files.entry out result.0 errors.old errors.new result.1 }
{
    match asked_of(alloc, question, paths, files) {
        Ok(asked) => answer_lens(
            alloc,
            &asked.request,
            &asked.paths,
            &asked.files,
            out,
            errors,
        ),
        Err(fault) => (out, Err(fault)),
    }
}

// What the question asks of which files.
fn asked_of<'f, A: Allocator + Copy>(
    alloc: A,
    question: &LensQuestion,
    paths: SizedBytes<'f>,
    files: SizedBytes<'f>,
) -> Result<Asked<'f, A>, LensFault>
    ensures ok { IfOk result (λ asked. AreAsked question.now paths.entry files.entry asked) }
    ensures only { IfOk result (λ asked. (other : LensRequest) → Asks question.now other → asked.request ≡ other) }
    ensures err { IfErr result (RefusesAsked question.now paths.entry files.entry) }
{
    let Some(request) = asked_by(question) else {
        return Err(LensFault::Usage);
    };
    let Some(names) = slices(alloc, paths)? else {
        return Err(LensFault::Usage);
    };
    let Some(bytes) = slices(alloc, files)? else {
        return Err(LensFault::Usage);
    };
    if names.len() != bytes.len() {
        return Err(LensFault::Usage);
    }
    Ok(Asked {
        request,
        paths: names,
        files: bytes,
    })
}

// What a question asks; None if one of its numbers has no meaning.
fn asked_by(question: &LensQuestion) -> Option<LensRequest<'static>>
    ensures { (asked : LensRequest) → (result ≡ Some asked) ↔ Asks question.now asked }
{
    let warnings = warnings_of(question.warnings)?;
    let rules = Rules {
        reading: reading_of(question.wide),
        warnings,
        ignored: CodeSet::none(),
        failing: failing_of(question.warnings),
        game_ends: false,
    };
    match word_of(question.command, question.number) {
        Some(word) => Some(LensRequest {
            word,
            rules,
            bases: usize::from(question.bases),
        }),
        None => None,
    }
}

fn word_of(command: u8, number: u64) -> Option<LensWord<'static>>
    ensures { (word : LensWord) → (result ≡ Some word) ↔ AsksWord command number word }
{
    match command {
        0 => Some(LensWord::Tell(ReportKind::Check(number, Form::Lines))),
        1 => Some(LensWord::Tell(ReportKind::Survey)),
        2 => Some(LensWord::Tell(ReportKind::Demos(Form::Lines))),
        3 => Some(LensWord::Tell(ReportKind::Demos(Form::Objects))),
        4 => Some(LensWord::Cut(CutAsked::Entry(number))),
        5 => Some(LensWord::Tell(ReportKind::Check(number, Form::Objects))),
        6 => Some(LensWord::List),
        _ => None,
    }
}

fn warnings_of(warnings: u8) -> Option<Warnings>
    ensures { (found : Warnings) → (result ≡ Some found) ↔ AsksWarnings warnings found }
{
    match warnings {
        0 => Some(Warnings::Unasked),
        1 | 2 => Some(Warnings::Told),
        _ => None,
    }
}

// What is as grave as a fault: with 2 each warning is.
fn failing_of(warnings: u8) -> CodeSet
    ensures { result ≡ failing_of warnings }
{
    if warnings == 2 {
        CodeSet::of_group(Group::Warnings)
    } else {
        CodeSet::none()
    }
}

/// The reading that a host asks for: signed for 0, else wide.
pub fn reading_of(wide: u8) -> Reading
    ensures { result ≡ reading_of wide }
{
    if wide == 0 {
        Reading::Signed
    } else {
        Reading::Wide
    }
}

/// The message beside the answer: that the question isn't valid, or what the run reported.
pub fn lens_message<'m>(outcome: &Result<Verdict, LensFault>, told: &'m [u8]) -> &'m [u8]
    ensures { result.now ≡ lens_message outcome.now told.now }
{
    match *outcome {
        Err(LensFault::Usage) => b"usage",
        Ok(_) | Err(LensFault::Full) => told,
    }
}
