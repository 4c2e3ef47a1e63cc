//! What the command line asks for, as the engines take it.

use atlas_page::PageHead;
use lens_commands::{AtlasJob, PictureQuestion, marks_by};
use lens_engines::{Rules, Warnings};
use lens_reports::{BasePaths, CutAsked, ReportJob, ReportKind, SHOWN};
use lens_words::{AtlasWords, CutWords, FileWords, JudgingWords, PictureWords, ReportAsked};
use map_cells::{CellCount, Frame};
use map_picture::View;

// How levels are judged.
fn rules_of(judging: &JudgingWords) -> Rules {
    Rules {
        reading: judging.reading,
        warnings: warnings_of(judging),
        ignored: judging.ignored,
        failing: judging.failing,
        game_ends: judging.game_ends,
    }
}

// Whether warnings are looked for.
fn warnings_of(judging: &JudgingWords) -> Warnings {
    if judging.warnings {
        Warnings::Told
    } else {
        Warnings::Unasked
    }
}

/// The report on files.
pub fn report_of<'a>(
    report: ReportAsked,
    judging: &JudgingWords,
    files: FileWords<'a>,
) -> ReportJob<'a> {
    let Some(bases) = BasePaths::new(files.bases) else {
        unreachable!()
    };
    ReportJob {
        word: kind_of(report),
        rules: rules_of(judging),
        bases,
        files: files.files,
        list: files.list,
        list_end: files.list_end,
    }
}

// Which report it is.
fn kind_of(report: ReportAsked) -> ReportKind {
    match report {
        ReportAsked::Check(most, form) => ReportKind::Check(most.unwrap_or(SHOWN), form),
        ReportAsked::Survey => ReportKind::Survey,
        ReportAsked::Demos(form) => ReportKind::Demos(form),
    }
}

/// The atlas.
pub fn atlas_of<'a>(words: AtlasWords<'a>) -> AtlasJob<'a> {
    let drawn = view_of(&words.judging, None, words.cells);
    let files = words.files;
    AtlasJob {
        job: report_of(ReportAsked::Survey, &words.judging, files),
        head: PageHead {
            title: words.title.as_bytes(),
            day: words.day.as_bytes(),
        },
        most: words.most,
        drawn,
        folder: words.folder.as_bytes(),
    }
}

/// The level that is drawn.
pub fn picture_of<'a>(words: &PictureWords<'a>) -> PictureQuestion<'a> {
    PictureQuestion {
        name: words.name.as_bytes(),
        reading: words.judging.reading,
        drawn: view_of(&words.judging, words.frame, words.cells),
    }
}

// What is drawn of a level, with the warnings that are asked for.
fn view_of(judging: &JudgingWords, frame: Option<Frame>, cells: CellCount) -> View {
    View {
        frame,
        cells,
        warnings: marks_by(warnings_of(judging), &judging.ignored),
    }
}

/// The level that is cut out.
pub fn cut_of<'a>(words: &CutWords<'a>) -> CutAsked<'a> {
    match words.name {
        Some(name) => CutAsked::Named(name.as_bytes()),
        None => CutAsked::Entry(words.entry),
    }
}
