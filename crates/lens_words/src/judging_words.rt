//! The arguments for how levels are judged.

use crate::mistake::Mistake;
use crate::shared_words::reading_of;
use clap::ArgMatches;
use level_codes::{CodeSet, Group};
use map_level::Reading;

/// How levels are to be judged.
#[derive(Clone, Copy)]
pub struct JudgingWords {
    pub reading: Reading,
    /// Whether warnings are asked for.
    pub warnings: bool,
    /// Notes and warnings of these are neither shown nor counted.
    pub ignored: CodeSet,
    /// A note or a warning of these is as grave as a fault.
    pub failing: CodeSet,
    /// One at which the released game ends is, too.
    pub game_ends: bool,
}

/// How levels are to be judged, by a command's arguments.
pub fn judging_of(matches: &ArgMatches<'_>) -> Result<JudgingWords, Mistake> {
    let ignored = codes_of(matches, "ignore", IGNORE_WANTS)?;
    let failing = codes_of(matches, "fail", FAIL_WANTS)?;
    if failing.written.shares(&ignored.written) {
        return Err(Mistake::Told("--fail and --ignore name the same code"));
    }
    let warnings = CodeSet::of_group(Group::Warnings);
    let asked = matches.get_flag("map");
    if !asked && failing.all().shares(&warnings) {
        return Err(Mistake::Told("--fail wants --map for a warning"));
    }
    Ok(JudgingWords {
        reading: reading_of(matches),
        warnings: asked,
        ignored: ignored.all(),
        failing: if matches.get_flag("strict") {
            failing.whole().with(warnings)
        } else {
            failing.whole()
        },
        game_ends: failing.game,
    })
}

// What --ignore and --fail want.
const IGNORE_WANTS: &str =
    "--ignore wants notes and warnings, as N2,W7-W8: codes, ranges, or game, notes, warnings";

const FAIL_WANTS: &str =
    "--fail wants notes and warnings, as N2,W9-W11: codes, ranges, or game, notes, warnings";

// What an option names: the codes that are written out, those of the classes that it names, and whether it names `game`.
#[derive(Clone, Copy)]
struct NamedCodes {
    written: CodeSet,
    classes: CodeSet,
    game: bool,
}

impl NamedCodes {
    fn none() -> NamedCodes {
        NamedCodes {
            written: CodeSet::none(),
            classes: CodeSet::none(),
            game: false,
        }
    }

    // These and those of one word more; None if it names none.
    fn with(mut self, word: &str) -> Option<NamedCodes> {
        match Group::named(word) {
            Some(Group::Game) => self.game = true,
            Some(group) => self.classes = self.classes.with(CodeSet::of_group(group)),
            None => self.written = self.written.with(CodeSet::written(word)?),
        }
        Some(self)
    }

    // All codes but those that only `game` brings.
    fn whole(&self) -> CodeSet {
        self.written.with(self.classes)
    }

    // All codes.
    fn all(&self) -> CodeSet {
        if self.game {
            self.whole().with(CodeSet::of_group(Group::Game))
        } else {
            self.whole()
        }
    }
}

// The codes that a command's option names; a word that names none is a mistake, told by what is wanted.
fn codes_of(
    matches: &ArgMatches<'_>,
    id: &str,
    wanted: &'static str,
) -> Result<NamedCodes, Mistake> {
    let mut codes = NamedCodes::none();
    if let Some(words) = matches.get_strs(id) {
        for word in words {
            codes = codes.with(word).ok_or(Mistake::Told(wanted))?;
        }
    }
    Ok(codes)
}
