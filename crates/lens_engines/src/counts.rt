//! How often each code of findings holds, told without a list of the findings.

ghost use Rattle.std.specs.Prelude.{◌≡◌, ◌<◌, ◌≤◌, length, sum, slice_index, slice_index_or};
ghost use Rattle.map_level.specs.declared.finding.Code.TheVariants.{F1};
ghost use Rattle.lens_engines.specs.Counts.{AreCounts, IsCount, fault_total, finding_order};

use map_level::Code;
use map_level::search::{CODE_COUNT, CODES, Search};
use std::marker::Model;

/// How often each code of findings holds of a level, by the codes' ranks.
#[derive(Drop)]
pub struct CodeCounts {
    counts: [u32; CODE_COUNT],
}

impl Model for CodeCounts {
    ghost use Rattle.std.specs.Prelude.{◌≡◌, List, ℕ, length};
    ghost use Rattle.map_level.specs.declared.search.TheConstants.{CODE_COUNT};

    ghost Value = { List ℕ };

    ghost view = { λ c. c.counts };

    ghost invariant = { λ c. length c.counts ≡ CODE_COUNT };
}

impl CodeCounts {
    /// How often the code of a rank holds.
    pub fn get(&self, rank: usize) -> u32
        requires { rank < CODE_COUNT }
        ensures { result ≡ slice_index self.now rank }
    {
        self.counts[rank]
    }

    /// How many of the findings are faults.
    pub fn faults(&self) -> u64
        ensures { result ≡ fault_total self.now }
    {
        total(&self.counts[..usize::from(Code::N1.rank())])
    }
}

/// The code of a rank in the order of a report.
pub fn code_at(rank: usize) -> Code
    requires { rank < CODE_COUNT }
    ensures { result ≡ slice_index_or finding_order rank F1 }
{
    CODES[rank]
}

// The sum of some counts.
fn total(counts: &[u32]) -> u64
    requires { length counts.now ≤ CODE_COUNT }
    ensures { result ≡ sum counts.now }
{
    counts.iter().map(|count| u64::from(*count)).sum()
}

/// How often each code holds of what is searched.
pub fn count_all<T: Search>(searched: &T) -> CodeCounts
    ensures { AreCounts (T.holds searched.now) result }
{
    let mut counts = [0; CODE_COUNT];
    for i in 0..CODE_COUNT {
        counts[i] = count_code(searched, CODES[i]);
    }
    CodeCounts { counts }
}

// How often a code holds of what is searched.
fn count_code<T: Search>(searched: &T, code: Code) -> u32
    ensures { IsCount (T.holds searched.now code) result }
{
    let mut count = 0;
    let mut from = 0;
    'finds: while let Some(index) = searched.first(code, from) {
        count += 1;
        from = index + 1;
    }
    count
}
