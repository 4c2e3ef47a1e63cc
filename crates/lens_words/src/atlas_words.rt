//! The arguments of `atlas`.

use crate::file_words::FileWords;
use crate::judging_words::{JudgingWords, judging_of};
use crate::mistake::Mistake;
use crate::shared_words::{cells_of, most_of};
use clap::ArgMatches;
use map_cells::CellCount;
use std::alloc::Global;

/// What `atlas` is asked for.
#[derive(Drop)]
pub struct AtlasWords<'a> {
    pub judging: JudgingWords,
    pub files: FileWords<'a>,
    /// The path of the folder.
    pub folder: &'a str,
    pub title: &'a str,
    /// The day that the page shows; empty if it shows none.
    pub day: &'a str,
    /// How many messages of one code the card of a level has at most.
    pub most: u64,
    pub cells: CellCount,
    /// Whether progress is shown on standard error.
    pub progress: bool,
}

// How many messages of one code a card has by default.
const CARD_SHOWN: u64 = 3;

impl<'a> AtlasWords<'a> {
    /// Reads the arguments of `atlas`.
    pub(crate) fn of(alloc: Global, matches: &ArgMatches<'a>) -> Result<AtlasWords<'a>, Mistake> {
        let judging = judging_of(matches)?;
        let files = FileWords::of(alloc, matches)?;
        let cells = cells_of(matches)?;
        Ok(AtlasWords {
            judging,
            files,
            // It is required.
            folder: matches.get_str("out").unwrap_or(""),
            title: matches.get_str("title").unwrap_or("Atlas"),
            day: matches.get_str("day").unwrap_or(""),
            most: most_of(matches).unwrap_or(CARD_SHOWN),
            cells,
            progress: matches.get_flag("progress"),
        })
    }
}
