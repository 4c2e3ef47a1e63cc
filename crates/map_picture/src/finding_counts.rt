//! How many findings there are, told without a list of them.

ghost use Rattle.std.specs.Prelude.{◌≡◌, ◌+◌, ◌<◌, ◌^◌, not, if◌then◌else◌};
ghost use Rattle.map_level.specs.Findings.{is_fault, rank};
ghost use Rattle.map_picture.specs.Counts.{CountsBelow, CountsFindings};

use map_level::Code;
use map_level::search::{CODES, Search};

/// How many findings are faults, and how many are notes.
#[derive(Clone, Copy, Debug, PartialEq, Eq)]
pub struct FindingCounts {
    pub faults: usize,
    pub notes: usize,
}

impl FindingCounts {
    // With one finding more, of a code.
    fn one_more(self, code: Code) -> FindingCounts
        requires { self.faults + self.notes + 1 < 2 ^ 64 }
        ensures faults { result.faults ≡ self.faults + (if is_fault code then 1 else 0) }
        ensures notes { result.notes ≡ self.notes + (if not (is_fault code) then 1 else 0) }
    {
        if code.is_fault() {
            FindingCounts {
                faults: self.faults + 1,
                notes: self.notes,
            }
        } else {
            FindingCounts {
                faults: self.faults,
                notes: self.notes + 1,
            }
        }
    }
}

/// How many findings there are of what is searched.
pub fn count_findings<T: Search>(searched: &T) -> FindingCounts
    ensures { CountsFindings (T.holds searched.now) result }
{
    let mut counts = FindingCounts {
        faults: 0,
        notes: 0,
    };
    for code in CODES {
        counts = count_code(searched, code, counts);
    }
    counts
}

// Adds a code's findings to those of all codes before it.
fn count_code<T: Search>(searched: &T, code: Code, before: FindingCounts) -> FindingCounts
    requires { CountsBelow (T.holds searched.now) (rank code) 0 before }
    ensures { CountsBelow (T.holds searched.now) (rank code + 1) 0 result }
{
    let mut counts = before;
    let mut from = 0;
    'finds: while let Some(index) = searched.first(code, from) {
        counts = counts.one_more(code);
        from = index + 1;
    }
    counts
}
