//! The commands, and the rows of their arguments.

use crate::arg_row::{ArgRow, Bound, Takes};
use crate::atlas_rows::ATLAS;
use crate::judging_rows::{FAIL, IGNORE, JUDGING};
use crate::picture_rows::PICTURE;
use clap::{Arg, Command};
use std::alloc::{AllocError, Global};

// The commands, in the order in which help shows them.
const COMMANDS: &[&str] = &[
    "check", "survey", "atlas", "explain", "demos", "picture", "cut", "compare", "listing",
    "assemble",
];

/// All commands with their arguments.
pub fn commands<'a>(alloc: Global) -> Result<Vec<Command<'a>>, AllocError> {
    let mut commands = Vec::new(alloc);
    for name in COMMANDS {
        commands.push(command_named(alloc, name)?)?;
    }
    Ok(commands)
}

/// The command of this name with its arguments; for a name that is no other's, `assemble`.
pub fn command_named<'a>(alloc: Global, name: &str) -> Result<Command<'a>, AllocError> {
    match name {
        "check" => check_command(alloc),
        "survey" => command_of(
            alloc,
            "survey",
            "Write a JSON object a line for each level and each refused file",
            &[IGNORE, FAIL, JUDGING, FILES],
        ),
        "atlas" => command_of(
            alloc,
            "atlas",
            "Write a folder of pictures with a page over all levels, and their survey",
            &[ATLAS, IGNORE, FAIL, JUDGING, FILES],
        ),
        "explain" => command_of(
            alloc,
            "explain",
            "Say what a code means, what the game does, and what to do; or list the codes",
            &[EXPLAIN],
        ),
        "demos" => command_of(
            alloc,
            "demos",
            "List demos, one a line: demo files, and the demos in WAD files",
            &[DEMOS, FILES],
        ),
        "picture" => command_of(
            alloc,
            "picture",
            "Draw a level as an SVG on standard output",
            &[PICTURE, IGNORE],
        ),
        "cut" => command_of(
            alloc,
            "cut",
            "Extract one level, even a hidden one, as a WAD file on standard output",
            &[CUT],
        ),
        "compare" => command_of(
            alloc,
            "compare",
            "Report where two demo files first differ, in one line",
            &[COMPARE],
        ),
        "listing" => command_of(
            alloc,
            "listing",
            "List a demo of any engine: its header, its options and its commands",
            &[LISTING],
        ),
        _ => command_of(
            alloc,
            "assemble",
            "Make a demo from a listing on standard input, as `wadlook demo` prints it",
            &[],
        ),
    }
}

// The command `check`. Its help ends with the codes and the statuses.
fn check_command<'a>(alloc: Global) -> Result<Command<'a>, AllocError> {
    let command = command_of(
        alloc,
        "check",
        "Report what is wrong with each level, a line for each finding",
        &[CHECK, IGNORE, FAIL, JUDGING, FILES],
    )?;
    Ok(command.after_help(CODES_AND_STATUSES))
}

// A command of this name, with what it does and the arguments of all rows.
fn command_of<'a>(
    alloc: Global,
    name: &'static str,
    about: &'static str,
    groups: &[&[ArgRow]],
) -> Result<Command<'a>, AllocError> {
    let args = args_of(alloc, groups)?;
    Command::new(alloc, name).about(about).args(args)
}

// The arguments of all rows.
fn args_of<'a>(alloc: Global, groups: &[&[ArgRow]]) -> Result<Vec<Arg<'a>>, AllocError> {
    let mut args = Vec::new(alloc);
    for rows in groups {
        add_args(alloc, rows, &mut args)?;
    }
    Ok(args)
}

// Adds the arguments of these rows.
fn add_args<'a>(alloc: Global, rows: &[ArgRow], args: &mut Vec<Arg<'a>>) -> Result<(), AllocError> {
    for row in rows {
        args.push(row.arg(alloc)?)?;
    }
    Ok(())
}

// What the help of `check` ends with.
const CODES_AND_STATUSES: &str =
    "F1 to F18 are faults, N1 to N12 notes, and W1 to W25 warnings, which --map asks for.\n\
     `wadlens explain CODE` says what a code means, and `wadlens explain` lists all.\n\
     \n\
     The status is 0 without a fault, 1 if a level has a fault or lacks a lump, or has what\n\
     --strict or --fail asks for, 2 if a file or a level can't be judged or the words are wrong,\n\
     and 3 if memory ran out.";

// The arguments of `check` alone.
const CHECK: &[ArgRow] = &[
    ArgRow {
        id: "max",
        value: Some("N"),
        takes: Takes::Number,
        bound: Bound::Free,
        help: "Show at most N findings or warnings of one code in one level; 0 shows all [default: 20]",
    },
    ArgRow {
        id: "json",
        value: None,
        takes: Takes::Flag,
        bound: Bound::Free,
        help: "Write a JSON object a line for each finding",
    },
    ArgRow {
        id: "quiet",
        value: None,
        takes: Takes::Flag,
        bound: Bound::Without("json"),
        help: "Write nothing to standard output: the status says what was found",
    },
];

// The arguments of `explain`.
const EXPLAIN: &[ArgRow] = &[ArgRow {
    id: "code",
    value: Some("CODE"),
    takes: Takes::Place,
    bound: Bound::Free,
    help: "A code, as F3; without one all codes are listed",
}];

// The arguments of `demos` alone.
const DEMOS: &[ArgRow] = &[ArgRow {
    id: "json",
    value: None,
    takes: Takes::Flag,
    bound: Bound::Free,
    help: "Write a JSON object a line for each demo",
}];

// The arguments of `compare`.
const COMPARE: &[ArgRow] = &[
    ArgRow {
        id: "commands",
        value: None,
        takes: Takes::Flag,
        bound: Bound::Free,
        help: "Compare how many players there are and what their commands do, and no header",
    },
    ArgRow {
        id: "a",
        value: Some("A"),
        takes: Takes::Place,
        bound: Bound::Required,
        help: "A demo file",
    },
    ArgRow {
        id: "b",
        value: Some("B"),
        takes: Takes::Place,
        bound: Bound::Required,
        help: "Another one",
    },
];

// The arguments of `listing`.
const LISTING: &[ArgRow] = &[ArgRow {
    id: "file",
    value: Some("DEMO"),
    takes: Takes::Place,
    bound: Bound::Required,
    help: "A demo file",
}];

// The arguments of `cut`.
const CUT: &[ArgRow] = &[
    ArgRow {
        id: "entry",
        value: Some("G"),
        takes: Takes::Number,
        bound: Bound::Unless("level"),
        help: "The number of the level's label among the entries of FILE, from 0 on",
    },
    ArgRow {
        id: "level",
        value: Some("NAME"),
        takes: Takes::Text,
        bound: Bound::Without("entry"),
        help: "The level's name, as MAP01: its last label in FILE",
    },
    ArgRow {
        id: "file",
        value: Some("FILE"),
        takes: Takes::Place,
        bound: Bound::Required,
        help: "A WAD file",
    },
];

// The arguments for files.
const FILES: &[ArgRow] = &[
    ArgRow {
        id: "files",
        value: Some("FILE"),
        takes: Takes::Places,
        bound: Bound::Unless("files-from"),
        help: "The files, each a set by itself",
    },
    ArgRow {
        id: "files-from",
        value: Some("LIST"),
        takes: Takes::Text,
        bound: Bound::Free,
        help: "After FILE... take the paths in LIST, one a line; `-` is standard input",
    },
    ArgRow {
        id: "null",
        value: None,
        takes: Takes::Flag,
        bound: Bound::With("files-from"),
        help: "The paths of LIST are ended by NULs",
    },
    ArgRow {
        id: "progress",
        value: None,
        takes: Takes::Flag,
        bound: Bound::Free,
        help: "Show on standard error how many files and levels are done",
    },
];
