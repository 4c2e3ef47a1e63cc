//! The line that shows how far a run is. It is rewritten in place.

use lens_texts::Watch;
use level_starts::LevelStarts;
use std::alloc::Allocator;
use std::io::Write;
use wad_dir::Set;

/// Shows how many files and levels are done, if it has an end to write to. A failure there is ignored.
#[derive(Drop)]
pub struct Progress<P: Write + Drop> {
    end: Option<P>,
    files: u64,
    levels: u64,
    // Whether the line has a text.
    stands: bool,
}

impl<P: Write + Drop> Progress<P> {
    /// The start of a run: no file and no level is done.
    pub fn new(end: Option<P>) -> Self {
        Progress {
            end,
            files: 0,
            levels: 0,
            stands: false,
        }
    }

    // Counts one more file and its levels, and rewrites the line.
    fn show(&mut self, levels: u64) {
        self.files = self.files.saturating_add(1);
        self.levels = self.levels.saturating_add(levels);
        if let Some(end) = &mut self.end {
            let _ = end.write_fmt(format_args!("\r{} files, {} levels", self.files, self.levels));
            self.stands = true;
        }
    }

    // Writes these bytes behind the line, if one is shown.
    fn leave(&mut self, by: &str) {
        if let Some(end) = &mut self.end {
            if self.stands {
                let _ = end.write_all(by.as_bytes());
                self.stands = false;
            }
        }
    }
}

impl<P: Write + Drop> Watch for Progress<P> {
    fn add<A: Allocator + Copy>(&mut self, alloc: A, bytes: &[u8]) {
        if self.end.is_some() {
            self.show(count_levels(alloc, bytes));
        }
    }

    fn add_refused(&mut self) {
        self.show(0);
    }

    // Clears the line, so that something else can be printed there.
    fn clear(&mut self) {
        self.leave("\r\x1b[K");
    }

    // Keeps the line, and starts the next one.
    fn finish(&mut self) {
        self.leave("\n");
    }
}

// How many levels start in a file's bytes.
fn count_levels<A: Allocator + Copy>(alloc: A, bytes: &[u8]) -> u64 {
    let Ok(set) = Set::one(alloc, bytes) else {
        return 0;
    };
    let mut levels: u64 = 0;
    for _ in LevelStarts::of(&set) {
        levels = levels.saturating_add(1);
    }
    levels
}
