//! What the page shows of a level.

ghost use Rattle.std.specs.Prelude.{◌≡◌};
ghost use Rattle.atlas_page.specs.Rows.{is_faulty, tells_fault};

use crate::messages::Messages;
use le_rec::Name8;
use lens_engines::{Surveyed, Verdict};

/// A row of the page.
#[derive(Drop)]
pub struct Row<'p> {
    /// The number of its file, from 1.
    pub file: u64,
    /// The path of its file.
    pub path: &'p [u8],
    /// The number of its label among the file's entries.
    pub entry: u64,
    /// The label's name.
    pub name: Name8,
    pub found: Surveyed,
    /// What a check says of it first: nothing of a level that isn't judged.
    pub messages: Messages,
}

impl Row<'_> {
    /// Whether the level has a fault, or lacks a lump.
    pub fn is_faulty(&self) -> bool
        ensures { result ≡ is_faulty self.now }
    {
        tells_fault(self.found.totals().verdict())
    }
}

// Whether a verdict is that of a fault.
fn tells_fault(verdict: Verdict) -> bool
    ensures { result ≡ tells_fault verdict }
{
    match verdict {
        Verdict::Faulty => true,
        Verdict::Unjudged | Verdict::Clean => false,
    }
}
