//! What the command line asks for.

use crate::atlas_words::AtlasWords;
use crate::file_words::FileWords;
use crate::judging_words::{JudgingWords, judging_of};
use crate::mistake::Mistake;
use crate::picture_words::PictureWords;
use crate::shared_words::most_of;
use clap::ArgMatches;
use lens_args::program;
use lens_texts::Form;
use level_codes::ReportCode;
use std::alloc::Global;

/// What the command line asks for.
#[derive(Drop)]
pub enum Task<'a> {
    /// A report on files: `check`, `survey` or `demos`.
    Tell(Telling<'a>),
    /// A code is explained, or all are listed.
    Explain(Option<ReportCode>),
    /// A level is cut out.
    Cut(CutWords<'a>),
    /// A level is drawn.
    Draw(PictureWords<'a>),
    /// Two demo files are compared.
    Compare(CompareWords<'a>),
    /// The demo file under this path is listed.
    List(&'a str),
    /// A demo is put together from its listing.
    Assemble,
    /// An atlas is made.
    Atlas(AtlasWords<'a>),
}

/// Which level is cut out, of which file.
#[derive(Clone, Copy)]
pub struct CutWords<'a> {
    /// The level's name; None if `entry` tells which level.
    pub name: Option<&'a str>,
    /// The number of the label among the file's entries.
    pub entry: u64,
    pub path: &'a str,
}

/// Which demo files are compared, and what of them.
#[derive(Clone, Copy)]
pub struct CompareWords<'a> {
    /// Whether players and commands are compared alone.
    pub commands: bool,
    pub path_a: &'a str,
    pub path_b: &'a str,
}

/// Which report is asked for.
#[derive(Clone, Copy, Debug, PartialEq, Eq)]
pub enum ReportAsked {
    /// The findings of each level, in a form. At most so many of one code in one level are shown; None where the words don't say.
    Check(Option<u64>, Form),
    /// An object for each level.
    Survey,
    /// The demos, in a form.
    Demos(Form),
}

/// What is reported on files, and how.
#[derive(Drop)]
pub struct Telling<'a> {
    pub report: ReportAsked,
    pub judging: JudgingWords,
    pub files: FileWords<'a>,
    /// Whether nothing is written to standard output.
    pub quiet: bool,
    /// Whether progress is shown on standard error.
    pub progress: bool,
}

/// Reads the arguments, the program's name first. An `Err` has the text for the user: what is wrong, or the help or the
/// version that was asked for.
pub fn read_words<'a>(alloc: Global, words: &'a [String]) -> Result<Task<'a>, Mistake> {
    let matches = program(alloc)?.try_get_matches_from(words)?;
    task_in(alloc, &matches)
}

// What the arguments ask for. Values that are read here without a default are required.
fn task_in<'a>(alloc: Global, matches: &ArgMatches<'a>) -> Result<Task<'a>, Mistake> {
    if let Some(of_atlas) = matches.subcommand_matches("atlas") {
        return Ok(Task::Atlas(AtlasWords::of(alloc, of_atlas)?));
    }
    if let Some(of_picture) = matches.subcommand_matches("picture") {
        return Ok(Task::Draw(PictureWords::of(alloc, of_picture)?));
    }
    if let Some(of_explain) = matches.subcommand_matches("explain") {
        return Ok(Task::Explain(code_of(of_explain)?));
    }
    if let Some(of_cut) = matches.subcommand_matches("cut") {
        return Ok(Task::Cut(CutWords {
            name: of_cut.get_str("level"),
            entry: of_cut.get_one::<u64>("entry").unwrap_or(0),
            path: of_cut.get_str("file").unwrap_or(""),
        }));
    }
    if let Some(of_compare) = matches.subcommand_matches("compare") {
        return Ok(Task::Compare(CompareWords {
            commands: of_compare.get_flag("commands"),
            path_a: of_compare.get_str("a").unwrap_or(""),
            path_b: of_compare.get_str("b").unwrap_or(""),
        }));
    }
    if let Some(of_listing) = matches.subcommand_matches("listing") {
        return Ok(Task::List(of_listing.get_str("file").unwrap_or("")));
    }
    if matches.subcommand_matches("assemble").is_some() {
        return Ok(Task::Assemble);
    }
    Ok(Task::Tell(telling_of(alloc, matches)?))
}

// The code that the arguments name, if they name one.
fn code_of(of_explain: &ArgMatches<'_>) -> Result<Option<ReportCode>, Mistake> {
    let Some(word) = of_explain.get_str("code") else {
        return Ok(None);
    };
    match ReportCode::from_word(word.as_bytes()) {
        Some(code) => Ok(Some(code)),
        None => Err(Mistake::Told("there are the codes F1 to F18, N1 to N12 and W1 to W25")),
    }
}

// Which report the arguments ask for.
fn telling_of<'a>(alloc: Global, matches: &ArgMatches<'a>) -> Result<Telling<'a>, Mistake> {
    match matches.subcommand_matches("check") {
        Some(of_check) => {
            let report = ReportAsked::Check(most_of(of_check), form_of(of_check));
            telling_over(alloc, report, of_check)
        }
        None => match matches.subcommand_matches("demos") {
            Some(of_demos) => telling_over(alloc, ReportAsked::Demos(form_of(of_demos)), of_demos),
            None => match matches.subcommand_matches("survey") {
                Some(of_survey) => telling_over(alloc, ReportAsked::Survey, of_survey),
                None => telling_over(alloc, ReportAsked::Survey, matches),
            },
        },
    }
}

// The form that a command's arguments ask for.
fn form_of(matches: &ArgMatches<'_>) -> Form {
    if matches.get_flag("json") {
        Form::Objects
    } else {
        Form::Lines
    }
}

// This report over the files that a command's arguments name.
fn telling_over<'a>(
    alloc: Global,
    report: ReportAsked,
    matches: &ArgMatches<'a>,
) -> Result<Telling<'a>, Mistake> {
    let judging = judging_of(matches)?;
    let files = FileWords::of(alloc, matches)?;
    Ok(Telling {
        report,
        judging,
        files,
        quiet: matches.get_flag("quiet"),
        progress: matches.get_flag("progress"),
    })
}
