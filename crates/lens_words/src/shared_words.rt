//! Arguments that several commands take.

use crate::mistake::Mistake;
use clap::ArgMatches;
use map_cells::CellCount;
use map_level::Reading;
use std::alloc::{AllocError, Global};

/// The default of `--cells`: how many cells the longer side of a picture has at most.
const DEFAULT_CELLS: u32 = 512;

/// How a level's indexes are read, by a command's arguments.
pub fn reading_of(matches: &ArgMatches<'_>) -> Reading {
    if matches.get_flag("wide") {
        Reading::Wide
    } else {
        Reading::Signed
    }
}

/// How many cells a command's arguments ask for.
pub fn cells_of(matches: &ArgMatches<'_>) -> Result<CellCount, Mistake> {
    let cells = matches.get_one::<u32>("cells").unwrap_or(DEFAULT_CELLS);
    CellCount::new(cells).ok_or(Mistake::Told("--cells wants a number from 1 to 1024"))
}

/// How many findings or warnings of one code are shown of a level at most, by a command's arguments, where 0 asks for all; None
/// where they don't say.
pub fn most_of(matches: &ArgMatches<'_>) -> Option<u64> {
    match matches.get_one::<u64>("max") {
        Some(0) => Some(u64::MAX),
        most => most,
    }
}

/// The texts that a command's arguments have of this name.
pub fn texts_of<'a>(
    alloc: Global,
    matches: &ArgMatches<'a>,
    id: &str,
) -> Result<Vec<&'a str>, AllocError> {
    let mut texts = Vec::new(alloc);
    if let Some(given) = matches.get_strs(id) {
        texts.extend_from_slice(given)?;
    }
    Ok(texts)
}
