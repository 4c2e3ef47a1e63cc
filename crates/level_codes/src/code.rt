//! The codes of a report.

ghost use Rattle.std.specs.Prelude.{◌≡◌, ◌<◌, ◌≤◌, ◌↔◌, IsTrue, Some, length};
ghost use Rattle.level_codes.specs.Explanations.{explained_of, explanation_of};
ghost use Rattle.level_codes.specs.Codes.{class_of, code_at, code_name, code_rank, ends_game, is_fault_code, kind_of, meaning_of, row_at, small, text_of, view_of, wants_of, warning_rank};
ghost use Rattle.level_codes.specs.declared.code.ReportCode.{ReportCode};
ghost use Rattle.level_codes.specs.declared.table.TheConstants.{REPORT_COUNT};

use crate::explanation::{Explanation, explanation_at};
use crate::kind::{Class, Kind, Wants};
use crate::table::{REPORT_COUNT, Row, row_at};
use map_level::Code;

/// The codes of warnings, in the order of a report.
#[derive(Clone, Copy, Debug, PartialEq, Eq)]
pub enum WarningCode {
    /// A sector isn't closed at a vertex.
    W1,
    /// A part of a wall can be seen and has no texture.
    W2,
    /// A thing is in the void.
    W3,
    /// A linedef's special goes by a tag that no sector has.
    W4,
    /// An ssector's segs face several sectors.
    W5,
    /// A linedef lies on an earlier one.
    W6,
    /// A player from 2 to 4 has no start.
    W7,
    /// There are fewer than four deathmatch starts.
    W8,
    /// A sidedef's texture isn't in the set.
    W9,
    /// A sector's flat isn't in the set.
    W10,
    /// The game doesn't know a thing's kind.
    W11,
    /// Kept for a later version.
    W12,
    /// Kept for a later version.
    W13,
    /// A linedef's special is none of the game's.
    W14,
    /// A linedef's special goes by the tag, and the tag is 0.
    W15,
    /// A linedef's special can't be crossed, or has no destination.
    W16,
    /// A linedef's use ends or spoils the game.
    W17,
    /// A player on a sector's floor ends the game.
    W18,
    /// The level has no exit, or a key isn't there.
    W19,
    /// Kept for a later version.
    W20,
    /// A thing ends the reading of things, is in no skill, or ends the game.
    W21,
    /// The level passes a limit of the game, or a texture lacks a patch.
    W22,
    /// Kept for a later version.
    W23,
    /// Kept for a later version.
    W24,
    /// A sector's flat isn't between the ends of the flats.
    W25,
}

impl WarningCode {
    /// The code's rank among those of warnings, from 0.
    pub fn rank(self) -> usize
        ensures rank { result ≡ warning_rank self }
        ensures few { result < 25 }
    {
        self as usize
    }
}

/// A code of a report: of a finding, or of a warning.
#[derive(Clone, Copy, Debug, PartialEq, Eq)]
pub enum ReportCode {
    Finding(Code),
    Warning(WarningCode),
}

impl ReportCode {
    /// The code's rank in the order of a report, from 0: faults, notes, warnings.
    pub fn rank(self) -> usize
        ensures rank { result ≡ code_rank self }
        ensures few { result < REPORT_COUNT }
    {
        match self {
            ReportCode::Finding(code) => usize::from(code.rank()),
            ReportCode::Warning(code) => 30 + code.rank(),
        }
    }

    /// The code of a rank.
    pub fn at(rank: usize) -> ReportCode
        requires { rank < REPORT_COUNT }
        ensures { result ≡ code_at rank }
    {
        row_at(rank).code
    }

    // Its row.
    fn row(self) -> &'static Row
        ensures { view_of result.now ≡ row_at (code_rank self) }
    {
        row_at(self.rank())
    }

    /// The code that is printed so, such as `F3` or `W10`.
    pub fn named(name: &[u8]) -> Option<ReportCode>
        ensures { (code : ReportCode) → (result ≡ Some code) ↔ (code_name code ≡ name.now) }
    {
        for rank in 0..REPORT_COUNT {
            let row = row_at(rank);
            if row.name == name {
                return Some(row.code);
            }
        }
        None
    }

    /// The code that a word of a command line is, in capital or small letters.
    pub fn from_word(word: &[u8]) -> Option<ReportCode>
        ensures { (code : ReportCode) → (result ≡ Some code) ↔ (small (code_name code) ≡ small word.now) }
    {
        for rank in 0..REPORT_COUNT {
            let row = row_at(rank);
            if is_spelled(row.name, word) {
                return Some(row.code);
            }
        }
        None
    }

    /// The code as it is printed: two bytes or three.
    pub fn name(self) -> &'static [u8]
        ensures name { result.now ≡ code_name self }
        ensures short { length result.now ≤ 3 }
    {
        self.row().name
    }

    /// Whether it is a fault: one of F1 to F18.
    pub fn is_fault(self) -> bool
        ensures { result ≡ is_fault_code self }
    {
        match self {
            ReportCode::Finding(code) => code.is_fault(),
            ReportCode::Warning(_) => false,
        }
    }

    /// How grave it is.
    pub fn class(self) -> Class
        ensures { result ≡ class_of self }
    {
        self.row().class
    }

    /// What it is found at.
    pub fn kind(self) -> Kind
        ensures { result ≡ kind_of self }
    {
        self.row().kind
    }

    /// What a level has to have so that it is looked for.
    pub fn wants(self) -> Wants
        ensures { result ≡ wants_of self }
    {
        self.row().wants
    }

    /// Whether the released game ends at it, or writes where nothing of its own is. Not told of faults.
    pub fn ends_game(self) -> bool
        ensures { result ≡ ends_game self }
    {
        self.row().ends_game
    }

    /// What it says, in few words.
    pub fn text(self) -> &'static [u8]
        ensures text { result.now ≡ text_of self }
        ensures short { length result.now ≤ 32 }
    {
        self.row().text
    }

    /// What it says, as a sentence without its capital and its full stop.
    pub fn meaning(self) -> &'static [u8]
        ensures { result.now ≡ meaning_of self }
    {
        self.row().meaning
    }
    /// What it means to a mapper.
    pub fn explanation(self) -> &'static Explanation
        ensures { explained_of result.now ≡ explanation_of self }
    {
        explanation_at(self.rank())
    }
}

// Whether a word is a name, in capital or small letters.
fn is_spelled(name: &[u8], word: &[u8]) -> bool
    ensures { IsTrue result ↔ (small name.now ≡ small word.now) }
{
    name.eq_ignore_ascii_case(word)
}
