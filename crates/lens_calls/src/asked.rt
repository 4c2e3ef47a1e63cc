//! What is asked of files, and why there is no answer.

ghost use Rattle.std.specs.Prelude.{◌≡◌, ◌<◌, ◌≤◌};

use demo_listings::Compared;
use lens_commands::PictureQuestion;
use lens_engines::Rules;
use lens_reports::{CutAsked, ReportKind};
use level_codes::ReportCode;
use std::alloc::AllocError;
use wad_dir::MAX_FILES;

/// What is asked of files.
#[derive(Clone, Copy)]
pub enum LensWord<'q> {
    /// A report on each of them but the base files.
    Tell(ReportKind),
    /// One level of the only file is cut out.
    Cut(CutAsked<'q>),
    /// A level of the set of all files is drawn: at most 64, of which a later one hides the names of those before it.
    Draw(PictureQuestion<'q>),
    /// The demo in the only file is listed.
    List,
    /// The demos of two files are compared.
    Compare(Compared),
    /// A code is explained, or all are listed. There are no files.
    Explain(Option<ReportCode>),
}

/// What is asked of files, and how their levels are judged.
#[derive(Clone, Copy)]
pub struct LensRequest<'q> {
    pub word: LensWord<'q>,
    /// How levels are judged. Only reports look at it.
    pub rules: Rules,
    /// How many of the files are base files: the first ones. They aren't reported on. Only reports have some, 63 at most.
    pub bases: usize,
}

impl LensRequest<'_> {
    ghost use Rattle.std.specs.Prelude.{◌↔◌, IsTrue};
    ghost use Rattle.lens_calls.specs.Asked.{Takes};

    /// Whether it can be asked of so many files.
    pub fn takes(&self, count: usize) -> bool
        ensures { IsTrue result ↔ Takes self.now.word self.now.bases count }
    {
        match self.word {
            LensWord::Tell(_) => self.bases < count && self.bases < MAX_FILES,
            LensWord::Cut(_) => self.bases == 0 && count == 1,
            LensWord::Draw(_) => self.bases == 0 && 0 < count && count <= MAX_FILES,
            LensWord::List => self.bases == 0 && count == 1,
            LensWord::Compare(_) => self.bases == 0 && count == 2,
            LensWord::Explain(_) => self.bases == 0 && count == 0,
        }
    }
}

/// Why there is no answer.
#[derive(Clone, Copy, Debug, PartialEq, Eq)]
pub enum LensFault {
    /// The question has no meaning, or doesn't take these files. Nothing was written.
    Usage,
    /// A growth was refused, or there is no room.
    Full,
}

impl From<AllocError> for LensFault {
    ghost use Rattle.lens_calls.specs.declared.asked.LensFault.TheVariants.{Full};

    ghost from_gives = { λ _ fault. fault ≡ Full };

    fn from(_error: AllocError) -> LensFault {
        LensFault::Full
    }
}
