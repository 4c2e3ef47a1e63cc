//! Findings of a level: codes, and the list of a report.

ghost use Rattle.std.specs.Prelude.{◌≡◌, ◌++◌, ◌∷◌, [], length, OnOk, OnErr};
ghost use Rattle.std.specs.List.{slice_get};
ghost use Rattle.map_level.specs.Findings.{rank, is_fault};

use std::alloc::{AllocError, Allocator, Global};
use std::marker::Model;

/// What can be found at a level: faults, which refuse it, and notes, in the order of a report.
#[derive(Clone, Copy, Debug, PartialEq, Eq)]
pub enum Code {
    /// A lump is missing after the label.
    F1,
    /// A lump is outside its file.
    F2,
    /// A linedef's vertex names none.
    F3,
    /// A linedef's side names none.
    F4,
    /// A sidedef's sector names none.
    F5,
    /// A seg's vertex names none.
    F6,
    /// A seg's linedef names none.
    F7,
    /// A seg's side is not 0 or 1.
    F8,
    /// A seg's linedef has no side there.
    F9,
    /// An ssector's segs are out of range.
    F10,
    /// A node's child names nothing.
    F11,
    /// A node's origin is out of range.
    F12,
    /// A node is named twice, or the root is named.
    F13,
    /// A node is not reached.
    F14,
    /// An ssector is named more than once.
    F15,
    /// An ssector is not reached.
    F16,
    /// There is no ssector.
    F17,
    /// There are more than 32767 nodes.
    F18,
    /// A lump's name is not the usual one.
    N1,
    /// Bytes are left over after a lump's records.
    N2,
    /// A linedef has the two-sided flag and no side 1.
    N3,
    /// A linedef has no side 0.
    N4,
    /// A linedef has no length.
    N5,
    /// An ssector has no segs.
    N6,
    /// A partition has no direction.
    N7,
    /// The reject table has another size than the sectors need.
    N8,
    /// The blockmap is short.
    N9,
    /// A block's list is faulty.
    N10,
    /// There is no start of player 1.
    N11,
    /// A vertex is out of range.
    N12,
}

impl Code {
    /// Whether the code is a fault: one of F1 to F18.
    pub fn is_fault(self) -> bool
        ensures { result ≡ is_fault self }
    {
        self.rank() < Code::N1.rank()
    }

    /// The code's rank in the order of a report, from 0.
    pub fn rank(self) -> u8
        ensures { result ≡ rank self }
    {
        self as u8
    }
}

/// A code, and the number of the lump (1 to 10), record or block at which it holds; 0 where a code
/// can hold only once.
#[derive(Clone, Copy, Debug, PartialEq, Eq)]
pub struct Finding {
    pub code: Code,
    pub index: u32,
}

/// Findings, in the order in which they were added.
#[derive(Debug, Drop)]
pub struct Findings<A: Allocator = Global> {
    list: Vec<Finding, A>,
}

impl<A: Allocator> Model for Findings<A> {
    ghost use Rattle.std.specs.Prelude.{List};
    ghost use Rattle.map_level.specs.declared.finding.Finding.{Finding};

    ghost Value = { List Finding };

    ghost view = { λ findings. findings.list.items };
}

impl<A: Allocator> Findings<A> {
    // No findings yet.
    pub(crate) fn new(alloc: A) -> Findings<A>
        ensures { result ≡ [] }
    {
        Findings {
            list: Vec::new(alloc),
        }
    }

    /// How many there are.
    pub fn len(&self) -> usize
        ensures { result ≡ length self.now }
    {
        self.list.len()
    }

    /// The finding of a number, from 0.
    pub fn get(&self, number: usize) -> Option<Finding>
        ensures { result ≡ slice_get self.now number }
    {
        self.list.get(number).copied()
    }

    /// All of them.
    pub fn as_slice(&self) -> &[Finding]
        ensures { result.now ≡ self.now }
    {
        &self.list
    }

    // Adds one at the end.
    pub(crate) fn push(&mut self, finding: Finding) -> Result<(), AllocError>
        ensures ok { OnOk result (self.new ≡ self.old ++ finding ∷ []) }
        ensures err { OnErr result (self.new ≡ self.old) }
    {
        self.list.push(finding)?;
        Ok(())
    }
}
