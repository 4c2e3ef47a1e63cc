//! The arguments of `picture`.

ghost use Rattle.std.specs.Prelude.{◌≤◌, vec_len};
ghost use Rattle.wad_dir.specs.declared.set.TheConstants.{MAX_FILES};

use crate::judging_words::{JudgingWords, judging_of};
use crate::mistake::Mistake;
use crate::shared_words::{cells_of, texts_of};
use clap::ArgMatches;
use map_cells::{CellCount, Frame};
use std::alloc::Global;
use wad_dir::MAX_FILES;

const BAD_FRAME: &str =
    "--frame wants four numbers from -32768 to 32767, the lesser first: X0,Y0,X1,Y1";

/// Which level is drawn, of which files, and how.
#[derive(Drop)]
pub struct PictureWords<'a> {
    /// The level's name.
    pub name: &'a str,
    /// Which warnings are marked, and how the level's indexes are read.
    pub judging: JudgingWords,
    /// The part that is drawn; None for the whole level.
    pub frame: Option<Frame>,
    pub cells: CellCount,
    /// The paths of the files, which form one set.
    pub files: Vec<&'a str>,
    ghost few: { vec_len files ≤ MAX_FILES },
}

impl<'a> PictureWords<'a> {
    /// Reads the arguments of `picture`.
    pub(crate) fn of(alloc: Global, matches: &ArgMatches<'a>) -> Result<PictureWords<'a>, Mistake> {
        let files = texts_of(alloc, matches, "files")?;
        if files.len() > MAX_FILES {
            return Err(Mistake::Told("at most 64 files form a set"));
        }
        let frame = match matches.get_str("frame") {
            Some(text) => Some(frame_of(text).ok_or(Mistake::Told(BAD_FRAME))?),
            None => None,
        };
        let cells = cells_of(matches)?;
        let judging = judging_of(matches)?;
        Ok(PictureWords {
            // It is required.
            name: matches.get_str("name").unwrap_or(""),
            judging,
            frame,
            cells,
            files,
        })
    }

    /// Whether the name looks like that of a file: both were exchanged, or so it seems.
    pub fn has_file_as_name(&self) -> bool {
        let name = self.name.as_bytes();
        let from = name.len().saturating_sub(4);
        matches!(&name[from..], [b'.', b'W' | b'w', b'A' | b'a', b'D' | b'd'])
    }
}

// The frame from a text of four numbers with commas between them: least x and y, then greatest x
// and y.
fn frame_of(text: &str) -> Option<Frame> {
    let mut numbers = text.split(',');
    let x0 = bound(numbers.next())?;
    let y0 = bound(numbers.next())?;
    let x1 = bound(numbers.next())?;
    let y1 = bound(numbers.next())?;
    if numbers.next().is_some() {
        return None;
    }
    Frame::new(x0, y0, x1, y1)
}

fn bound(number: Option<&str>) -> Option<i16> {
    number?.parse().ok()
}
