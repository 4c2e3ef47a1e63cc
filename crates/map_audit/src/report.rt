//! The report of a level: its findings, and how many of them are faults.

ghost use Rattle.std.specs.Prelude.{◌≡◌, length, count_by, not};
ghost use Rattle.std.specs.List.{slice_get};
ghost use Rattle.map_level.specs.Findings.{is_fault};

use map_level::{Finding, Findings};
use std::alloc::{Allocator, Global};
use std::marker::Model;

/// All findings of a level, by code, F3 to F18 and N1 to N12, and then by index.
#[derive(Debug, Drop)]
pub struct Report<A: Allocator = Global> {
    findings: Findings<A>,
}

impl<A: Allocator> Model for Report<A> {
    ghost use Rattle.std.specs.Prelude.{List};
    ghost use Rattle.map_level.specs.declared.finding.Finding.{Finding};

    ghost Value = { List Finding };

    ghost view = { λ r. r.findings };
}

impl<A: Allocator> Report<A> {
    /// The report of these findings.
    pub(crate) fn of(findings: Findings<A>) -> Report<A>
        ensures { result ≡ findings }
    {
        Report { findings }
    }

    /// How many findings there are.
    pub fn len(&self) -> usize
        ensures { result ≡ length self.now }
    {
        self.findings.len()
    }

    /// The finding of a number, counted from 0.
    pub fn get(&self, number: usize) -> Option<Finding>
        ensures { result ≡ slice_get self.now number }
    {
        self.findings.get(number)
    }

    /// How many of them are faults.
    pub fn faults(&self) -> usize
        ensures { result ≡ count_by (λ f. is_fault f.code) self.now }
    {
        count_faults(self.findings.as_slice())
    }

    /// How many of them are notes.
    pub fn notes(&self) -> usize
        ensures { result ≡ count_by (λ f. not (is_fault f.code)) self.now }
    {
        count_notes(self.findings.as_slice())
    }
}

fn count_faults(found: &[Finding]) -> usize
    ensures { result ≡ count_by (λ f. is_fault f.code) found.now }
{
    found.iter().filter(|f| f.code.is_fault()).count()
}

fn count_notes(found: &[Finding]) -> usize
    ensures { result ≡ count_by (λ f. not (is_fault f.code)) found.now }
{
    found.iter().filter(|f| !f.code.is_fault()).count()
}
