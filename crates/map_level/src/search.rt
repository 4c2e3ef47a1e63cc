//! The search for findings, code by code: where a code holds next, and the one walk over all codes that makes a list of it.

ghost use Rattle.std.specs.Prelude.{◌+◌, ◌<◌, ◌≤◌, ◌^◌, ◌↔◌, ◌⊎◌, ℕ, Bool, false, IfNone, IfOk, IfSome, IsTrue, OnOk};
ghost use Rattle.map_level.specs.Findings.{rank, is_fault, AreFindings, AreFindingsBelow, IsFirst, NoFaultHolds};

use crate::finding::{Code, Finding, Findings};
use std::alloc::{AllocError, Allocator};

/// What is searched for findings.
pub trait Searched {
    ghost use Rattle.std.specs.Prelude.{ℕ};
    ghost use Rattle.map_level.specs.declared.finding.Code.{Code};

    /// Whether a code holds at an index.
    ghost holds: { Self → Code → ℕ → Type 0 };
}

/// A search for where codes hold.
pub trait Search: Searched {
    /// The first index at which a code holds, from a given one on.
    fn first(&self, code: Code, from: u32) -> Option<u32>
        ensures some { IfSome result (IsFirst (Self.holds self.now code) from) }
        ensures none { IfNone result ((i : ℕ) → from ≤ i → ¬ Self.holds self.now code i) }
        ensures below { IfSome result (λ at. at + 1 < 2 ^ 32) };
}

/// How many codes there are.
pub const CODE_COUNT: usize = 30;

/// The codes in the order of a report.
pub const CODES: [Code; CODE_COUNT] = [
    Code::F1,
    Code::F2,
    Code::F3,
    Code::F4,
    Code::F5,
    Code::F6,
    Code::F7,
    Code::F8,
    Code::F9,
    Code::F10,
    Code::F11,
    Code::F12,
    Code::F13,
    Code::F14,
    Code::F15,
    Code::F16,
    Code::F17,
    Code::F18,
    Code::N1,
    Code::N2,
    Code::N3,
    Code::N4,
    Code::N5,
    Code::N6,
    Code::N7,
    Code::N8,
    Code::N9,
    Code::N10,
    Code::N11,
    Code::N12,
];

/// The first index at which a code holds, from a given one on. It is below `count`, and the test is true there. This writes
/// nothing, so the test's reads of a level need not be repeated.
#[inline(always)]
pub fn first_where<T: Searched, F: Fn(u32) -> bool>(
    searched: &T,
    code: Code,
    from: u32,
    count: u32,
    test: F,
) -> Option<u32>
    requires callable { F.IsAlwaysCallable test }
    requires tells { (i : ℕ) (b : Bool)
        → F.post test i b → (IsTrue b ↔ T.holds searched.now code i) }
    requires most { (i : ℕ) → T.holds searched.now code i → i < count }
    ensures some { IfSome result (IsFirst (T.holds searched.now code) from) }
    ensures none { IfNone result ((i : ℕ) → from ≤ i → ¬ T.holds searched.now code i) }
    ensures below { IfSome result (λ at. at + 1 < 2 ^ 32) }
{
    // Only the clauses speak of what is searched.
    let _searched = searched;
    for index in from..count {
        if test(index) {
            return Some(index);
        }
    }
    None
}

/// A number above all indexes below `count` at which a test is true: 0 if there are none, else `count`. It is for the tests
/// of all codes of a table at once: if it is 0, none of them needs a search of its own.
#[inline(always)]
pub fn bound_where<F: Fn(u32) -> bool>(count: u32, test: F) -> u32
    requires { F.IsAlwaysCallable test }
    ensures { (i : ℕ) → i < count → (i < result) ⊎ F.post test i false }
{
    for index in 0..count {
        if test(index) {
            return count;
        }
    }
    0
}

/// All findings of what is searched, by code and then by index.
pub fn all_findings<T: Search, A: Allocator>(
    alloc: A,
    searched: &T,
) -> Result<Findings<A>, AllocError>
    ensures { IfOk result (AreFindings (T.holds searched.now)) }
{
    let mut found = Findings::new(alloc);
    for code in CODES {
        add_code(&mut found, searched, code)?;
    }
    Ok(found)
}

// Adds the findings of a code to those of all codes before it.
fn add_code<T: Search, A: Allocator>(
    found: &mut Findings<A>,
    searched: &T,
    code: Code,
) -> Result<(), AllocError>
    requires { AreFindingsBelow (T.holds searched.now) (rank code) 0 found.old }
    ensures { OnOk result (AreFindingsBelow (T.holds searched.now) (rank code + 1) 0 found.new) }
{
    let mut from = 0;
    'finds: while let Some(index) = searched.first(code, from) {
        found.push(Finding { code, index })?;
        from = index + 1;
    }
    Ok(())
}

/// Whether no fault holds of what is searched. It stops at the first one, and takes no memory.
pub fn has_no_fault<T: Search>(searched: &T) -> bool
    ensures { IsTrue result ↔ NoFaultHolds (T.holds searched.now) }
{
    for code in CODES {
        if !is_no_fault(searched, code) {
            return false;
        }
    }
    true
}

// Whether a code is no fault that holds.
fn is_no_fault<T: Search>(searched: &T, code: Code) -> bool
    ensures { IsTrue result ↔ (IsTrue (is_fault code) → (i : ℕ) → ¬ T.holds searched.now code i) }
{
    !code.is_fault() || searched.first(code, 0).is_none()
}
