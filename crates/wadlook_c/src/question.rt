//! What is asked of `wadlens`, by numbers.

ghost use Rattle.std.specs.Prelude.{◌≡◌, ◌≢◌, ◌<◌, IfNone, IfSome};
ghost use Rattle.lens_commands.specs.PictureMarks.{marks_by};
ghost use Rattle.level_codes.specs.declared.table.TheConstants.{REPORT_COUNT};
ghost use Rattle.wadlook_c.specs.Ends.{reading_of};
ghost use Rattle.wadlook_c.specs.Question.{Asks, AsksPicture, AsksRules, AsksView, AsksWord, HasBits, IsCodeOf, IsMistaken, IsNoView, NamesNoCode, bit_at, cells_of, most_of, warnings_of};

use crate::opening::reading_of;
use demo_listings::Compared;
use lens_calls::{LensRequest, LensWord};
use lens_commands::{PictureQuestion, marks_by};
use lens_engines::{Rules, Warnings};
use lens_reports::{CutAsked, ReportKind};
use lens_texts::Form;
use level_codes::{CodeSet, Group, REPORT_COUNT, ReportCode};
use map_cells::{CellCount, Frame};
use map_picture::View;

/// A question about files.
#[repr(C)]
#[derive(Clone, Copy)]
pub struct WadlookQuestion<'q> {
    /// The level's name, of `picture` and of `cut` by a name.
    pub name: &'q [u8],
    /// Of `check` how many findings or warnings of one code in one level are shown at most, where 0 shows all. Of `cut` the
    /// entry of the level's label. Of `explain` the code's rank.
    pub number: u64,
    /// The codes that are ignored: the bit of each code's rank.
    pub ignored: u64,
    /// The codes that are as grave as a fault, in the same way.
    pub failing: u64,
    /// How many bytes the answer and the messages have at most, each; 0 for as many as there is memory for.
    pub limit: usize,
    /// How many of the files are base files: the first ones, 63 at most. They aren't reported on.
    pub bases: usize,
    /// 0 `check`, 1 `survey`, 2 `demos`, 3 `demos --json`, 4 `cut --entry`, 5 `check --json`, 6 `cut --level`, 7 `picture`,
    /// 8 `compare`, 9 `assemble`, 10 `explain CODE`, 11 `explain`, 12 `listing`, 13 `compare --commands`.
    pub word: u32,
    /// How many cells the longer side of a picture has at most, from 1 to 1024; 0 for 512.
    pub cells: u32,
    /// The part of a map that is drawn, where `framed` is true.
    pub x0: i16,
    pub y0: i16,
    pub x1: i16,
    pub y1: i16,
    pub framed: bool,
    /// To read indexes as numbers from 0 to 65535.
    pub wide: bool,
    /// To look for warnings.
    pub map: bool,
    /// To count each warning as a fault.
    pub strict: bool,
    /// To count as a fault each finding and warning at which the released game ends.
    pub game_ends: bool,
}

/// What is asked.
#[derive(Clone, Copy)]
pub enum Asked<'q> {
    /// This, of the files.
    OfFiles(LensRequest<'q>),
    /// A demo is put together from the input. There are no files.
    OfInput,
}

/// What a question asks; None where it has no meaning.
pub fn asked_by<'q>(question: &WadlookQuestion<'q>) -> Option<Asked<'q>>
    ensures some { IfSome result (Asks question.now) }
    ensures none { IfNone result (IsMistaken question.now) }
{
    if question.word == 9 {
        return Some(Asked::OfInput);
    }
    match word_of(question) {
        Some(word) => Some(Asked::OfFiles(LensRequest {
            word,
            rules: rules_of(question),
            bases: question.bases,
        })),
        None => None,
    }
}

// The word of a question.
#[tactic(auto, using(crate::proofs::QuestionLemmas::past_words))]
fn word_of<'q>(question: &WadlookQuestion<'q>) -> Option<LensWord<'q>>
    ensures some { IfSome result (AsksWord question.now) }
    ensures none { question.now.word ≢ 9 → IfNone result (IsMistaken question.now) }
{
    match question.word {
        0 => Some(LensWord::Tell(ReportKind::Check(most_of(question.number), Form::Lines))),
        1 => Some(LensWord::Tell(ReportKind::Survey)),
        2 => Some(LensWord::Tell(ReportKind::Demos(Form::Lines))),
        3 => Some(LensWord::Tell(ReportKind::Demos(Form::Objects))),
        4 => Some(LensWord::Cut(CutAsked::Entry(question.number))),
        5 => Some(LensWord::Tell(ReportKind::Check(most_of(question.number), Form::Objects))),
        6 => Some(LensWord::Cut(CutAsked::Named(question.name))),
        7 => match picture_of(question) {
            Some(picture) => Some(LensWord::Draw(picture)),
            None => None,
        },
        8 => Some(LensWord::Compare(Compared::Everything)),
        10 => Some(LensWord::Explain(Some(code_of(question.number)?))),
        11 => Some(LensWord::Explain(None)),
        12 => Some(LensWord::List),
        13 => Some(LensWord::Compare(Compared::Commands)),
        _ => None,
    }
}

// How many are shown: all for 0.
fn most_of(number: u64) -> u64
    ensures { result ≡ most_of number }
{
    if number == 0 { u64::MAX } else { number }
}

// The code of a rank.
fn code_of(rank: u64) -> Option<ReportCode>
    ensures some { IfSome result (IsCodeOf rank) }
    ensures none { IfNone result (NamesNoCode rank) }
{
    if rank >= REPORT_COUNT as u64 {
        return None;
    }
    Some(ReportCode::at(rank as usize))
}

// The picture that is asked for.
fn picture_of<'q>(question: &WadlookQuestion<'q>) -> Option<PictureQuestion<'q>>
    ensures some { IfSome result (AsksPicture question.now) }
    ensures none { IfNone result (IsNoView question.now) }
{
    match view_of(question) {
        Some(drawn) => Some(PictureQuestion {
            name: question.name,
            reading: reading_of(question.wide),
            drawn,
        }),
        None => None,
    }
}

// What of a level is drawn, and how finely.
fn view_of(question: &WadlookQuestion<'_>) -> Option<View>
    ensures some { IfSome result (AsksView question.now) }
    ensures none { IfNone result (IsNoView question.now) }
{
    let Some(cells) = count_of(question.cells) else {
        return None;
    };
    let rules = rules_of(question);
    let warnings = marks_by(rules.warnings, &rules.ignored);
    if !question.framed {
        return Some(View {
            frame: None,
            cells,
            warnings,
        });
    }
    let frame = Frame::new(question.x0, question.y0, question.x1, question.y1)?;
    Some(View {
        frame: Some(frame),
        cells,
        warnings,
    })
}

// How many cells the longer side of a picture has at most.
fn count_of(number: u32) -> Option<CellCount>
    ensures some { IfSome result (λ count. count ≡ cells_of number) }
    ensures none { IfNone result (1024 < cells_of number) }
{
    CellCount::new(cells_of(number))
}

// So many, and 512 for 0.
fn cells_of(number: u32) -> u32
    ensures { result ≡ cells_of number }
{
    if number == 0 { 512 } else { number }
}

// How levels are judged.
fn rules_of(question: &WadlookQuestion<'_>) -> Rules
    ensures { AsksRules question.now result }
{
    let failing = codes_of(question.failing);
    Rules {
        reading: reading_of(question.wide),
        warnings: warnings_of(question.map),
        ignored: codes_of(question.ignored),
        failing: if question.strict {
            failing.with(CodeSet::of_group(Group::Warnings))
        } else {
            failing
        },
        game_ends: question.game_ends,
    }
}

fn warnings_of(map: bool) -> Warnings
    ensures { result ≡ warnings_of map }
{
    if map {
        Warnings::Told
    } else {
        Warnings::Unasked
    }
}

// The codes whose bits are set.
fn codes_of(bits: u64) -> CodeSet
    ensures { HasBits bits result }
{
    let mut counts = [0; REPORT_COUNT];
    for rank in 0..REPORT_COUNT {
        counts[rank] = bit_at(bits, rank as u32);
    }
    CodeSet::counted(&counts)
}

// A bit: 1 or 0.
fn bit_at(bits: u64, n: u32) -> u64
    requires { n < 64 }
    ensures { result ≡ bit_at bits n }
{
    (bits >> n) % 2
}
