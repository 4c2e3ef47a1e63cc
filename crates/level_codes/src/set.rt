//! Sets of codes, and the words that name them.

ghost use Rattle.std.specs.Prelude.{◌≡◌, ◌↔◌, IfNone, IfSome, IsTrue, Some, false};
ghost use Rattle.level_codes.specs.Codes.{small};
ghost use Rattle.level_codes.specs.Sets.{IsCalled, IsShared, IsSpan, IsWritten, Rises, Shares, codes_between, common_codes, counted_codes, group_codes, group_name, has, in_both, in_either, in_first_alone, is_between, is_counted, is_in, is_unmet, no_codes, unmet_codes, with_codes, without_codes};
ghost use Rattle.level_codes.specs.declared.code.ReportCode.{ReportCode};
ghost use Rattle.level_codes.specs.declared.set.CodeSet.{CodeSet};
ghost use Rattle.level_codes.specs.declared.set.Group.{Group};

use crate::code::ReportCode;
use crate::kind::{Class, Offer};
use crate::table::REPORT_COUNT;

/// A set of codes, such as those that are ignored.
#[derive(Clone, Copy, Debug, PartialEq, Eq)]
pub struct CodeSet {
    /// Whether each code is in it, by the codes' ranks.
    codes: [bool; REPORT_COUNT],
}

/// A group of codes that has a name.
#[derive(Clone, Copy, Debug, PartialEq, Eq)]
pub enum Group {
    /// The released game ends at them, or writes where nothing of its own is.
    Game,
    Notes,
    Warnings,
}

impl Group {
    /// The group of a name, in small letters or capitals: `game`, `notes` or `warnings`.
    pub fn named(word: &str) -> Option<Group>
        ensures { (group : Group) → (result ≡ Some group) ↔ (group_name group ≡ small word.now) }
    {
        if word.eq_ignore_ascii_case("game") {
            Some(Group::Game)
        } else if word.eq_ignore_ascii_case("notes") {
            Some(Group::Notes)
        } else if word.eq_ignore_ascii_case("warnings") {
            Some(Group::Warnings)
        } else {
            None
        }
    }

    // Whether a code is in it.
    fn takes(self, code: ReportCode) -> bool
        ensures { result ≡ is_in self code }
    {
        match self {
            Group::Game => code.ends_game(),
            Group::Notes => matches!(code.class(), Class::Note),
            Group::Warnings => matches!(code.class(), Class::Warning),
        }
    }
}

impl CodeSet {
    /// No codes.
    pub fn none() -> CodeSet
        ensures { result ≡ no_codes }
    {
        CodeSet {
            codes: [false; REPORT_COUNT],
        }
    }

    /// All codes of a group.
    pub fn of_group(group: Group) -> CodeSet
        ensures { result ≡ group_codes group }
    {
        let mut codes = [false; REPORT_COUNT];
        for rank in 0..REPORT_COUNT {
            codes[rank] = group.takes(ReportCode::at(rank));
        }
        CodeSet { codes }
    }

    /// The codes from one to another in the order of a report, both among them.
    pub fn between(first: ReportCode, last: ReportCode) -> CodeSet
        ensures { result ≡ codes_between first last }
    {
        let mut codes = [false; REPORT_COUNT];
        for rank in 0..REPORT_COUNT {
            codes[rank] = is_between(first, last, ReportCode::at(rank));
        }
        CodeSet { codes }
    }

    /// The codes that a word writes out: those of a note's or a warning's code, such as `N2`, or of a range of one letter,
    /// such as `W9-W11`; in small letters, too. None if it is neither, or if the range falls.
    pub fn written(word: &str) -> Option<CodeSet>
        ensures some { IfSome result (IsWritten word.now) }
        ensures none { IfNone result ((set : CodeSet) → ¬ IsWritten word.now set) }
    {
        if let Some(code) = called(word) {
            return Some(CodeSet::between(code, code));
        }
        span(word)
    }

    /// Whether a code is in it.
    pub fn has(&self, code: ReportCode) -> bool
        ensures { result ≡ has self.now code }
    {
        self.codes[code.rank()]
    }

    /// The codes of both.
    pub fn with(self, other: CodeSet) -> CodeSet
        ensures { result ≡ with_codes self other }
    {
        let mut codes = [false; REPORT_COUNT];
        for rank in 0..REPORT_COUNT {
            codes[rank] = in_either(&self, &other, ReportCode::at(rank));
        }
        CodeSet { codes }
    }

    /// The codes that are in both.
    pub fn common(self, other: CodeSet) -> CodeSet
        ensures { result ≡ common_codes self other }
    {
        let mut codes = [false; REPORT_COUNT];
        for rank in 0..REPORT_COUNT {
            codes[rank] = in_both(&self, &other, ReportCode::at(rank));
        }
        CodeSet { codes }
    }

    /// These codes without those of another set.
    pub fn without(self, other: CodeSet) -> CodeSet
        ensures { result ≡ without_codes self other }
    {
        let mut codes = [false; REPORT_COUNT];
        for rank in 0..REPORT_COUNT {
            codes[rank] = in_first_alone(&self, &other, ReportCode::at(rank));
        }
        CodeSet { codes }
    }

    /// The codes that want of a level what the level hasn't.
    pub fn unmet(offer: Offer) -> CodeSet
        ensures { result ≡ unmet_codes offer }
    {
        let mut codes = [false; REPORT_COUNT];
        for rank in 0..REPORT_COUNT {
            codes[rank] = is_unmet(offer, ReportCode::at(rank));
        }
        CodeSet { codes }
    }

    /// The codes of which there are any, by how many there are of each rank.
    pub fn counted(counts: &[u64; REPORT_COUNT]) -> CodeSet
        ensures { result ≡ counted_codes counts.now }
    {
        let mut codes = [false; REPORT_COUNT];
        for rank in 0..REPORT_COUNT {
            codes[rank] = is_counted(counts, ReportCode::at(rank));
        }
        CodeSet { codes }
    }

    /// Whether a code is in both.
    pub fn shares(&self, other: &CodeSet) -> bool
        ensures { IsTrue result ↔ Shares self.now other.now }
    {
        for rank in 0..REPORT_COUNT {
            if is_shared(self, other, ReportCode::at(rank)) {
                return true;
            }
        }
        false
    }

    /// Whether no code is in it.
    pub fn is_empty(&self) -> bool
        ensures { IsTrue result ↔ ((code : ReportCode) → has self.now code ≡ false) }
    {
        for rank in 0..REPORT_COUNT {
            if self.has(ReportCode::at(rank)) {
                return false;
            }
        }
        true
    }
}

// Whether a code is in one of two sets.
fn in_either(a: &CodeSet, b: &CodeSet, code: ReportCode) -> bool
    ensures { result ≡ in_either a.now b.now code }
{
    a.has(code) || b.has(code)
}

// Whether a code is in both.
fn in_both(a: &CodeSet, b: &CodeSet, code: ReportCode) -> bool
    ensures { result ≡ in_both a.now b.now code }
{
    a.has(code) && b.has(code)
}

// Whether a code is in the first alone.
fn in_first_alone(a: &CodeSet, b: &CodeSet, code: ReportCode) -> bool
    ensures { result ≡ in_first_alone a.now b.now code }
{
    a.has(code) && !b.has(code)
}

// Whether a code wants what a level hasn't.
fn is_unmet(offer: Offer, code: ReportCode) -> bool
    ensures { result ≡ is_unmet offer code }
{
    !code.wants().are_met(offer)
}

// Whether there are any of a code.
fn is_counted(counts: &[u64; REPORT_COUNT], code: ReportCode) -> bool
    ensures { result ≡ is_counted counts.now code }
{
    counts[code.rank()] > 0
}

// Whether a code is shared by two sets.
fn is_shared(a: &CodeSet, b: &CodeSet, code: ReportCode) -> bool
    ensures { IsTrue result ↔ IsShared a.now b.now code }
{
    b.has(code) && a.has(code)
}

// Whether a code stands from one to another in the order of a report.
fn is_between(first: ReportCode, last: ReportCode, code: ReportCode) -> bool
    ensures { result ≡ is_between first last code }
{
    first.rank() <= code.rank() && code.rank() <= last.rank()
}

// The codes of a range.
fn span(word: &str) -> Option<CodeSet>
    ensures some { IfSome result (IsSpan word.now) }
    ensures none { IfNone result ((set : CodeSet) → ¬ IsSpan word.now set) }
{
    let Some((front, back)) = word.split_once('-') else {
        return None;
    };
    let Some(first) = called(front) else {
        return None;
    };
    let Some(last) = called(back) else {
        return None;
    };
    if !rises(first, last) {
        return None;
    }
    Some(CodeSet::between(first, last))
}

// The note or the warning whose code a word is, in small letters, too.
fn called(word: &str) -> Option<ReportCode>
    ensures { (code : ReportCode) → (result ≡ Some code) ↔ IsCalled word.now code }
{
    let code = ReportCode::from_word(word.as_bytes())?;
    if code.is_fault() { None } else { Some(code) }
}

// Whether two codes have one letter, and stand in their order.
fn rises(first: ReportCode, last: ReportCode) -> bool
    ensures { IsTrue result ↔ Rises first last }
{
    first.class() == last.class() && first.rank() <= last.rank()
}
