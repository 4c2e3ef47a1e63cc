//! A sink that takes so many bytes at most.

ghost use Rattle.std.specs.Prelude.{◌≡◌, ◌≤◌, false, [], IfOk, length};
ghost use Rattle.le_rec.specs.Sink.{Takes};

use le_rec::{EndFault, Sink};
use memory_streams::ToVec;
use std::alloc::Global;
use std::marker::Model;

/// A growing vector as a sink, which takes so many bytes at most. A put that would take more takes those that fit, and the next
/// one fails.
#[derive(Drop)]
pub struct AtMost {
    bytes: ToVec,
    most: usize,
    // Whether a put found no room.
    full: bool,
}

impl Model for AtMost {
    ghost use Rattle.std.specs.Prelude.{◌||◌};
    ghost use Rattle.wadlook_c.specs.AtMost as at_most;

    ghost Value = { at_most.AtMost };

    ghost view = { λ s. record { taken = s.bytes.taken; failed = s.full || s.bytes.failed } };
}

impl AtMost {
    /// A sink that has taken nothing. Of 0 bytes at most it takes as many as there is memory for.
    pub fn new(alloc: Global, limit: usize) -> AtMost
        ensures taken { result.taken ≡ [] }
        ensures sound { result.failed ≡ false }
    {
        AtMost {
            bytes: ToVec::new(alloc),
            most: if limit == 0 { usize::MAX } else { limit },
            full: false,
        }
    }

    /// The bytes that it has taken.
    pub fn taken(&self) -> &[u8]
        ensures { result.now ≡ self.now.taken }
    {
        self.bytes.taken()
    }
}

impl Sink for AtMost {
    ghost use Rattle.wadlook_c.specs.AtMost.{state_of};

    ghost state = { state_of };

    fn put(&mut self, bytes: &[u8]) -> Result<usize, EndFault> {
        let left = self.most.saturating_sub(self.bytes.taken().len());
        if left == 0 && !bytes.is_empty() {
            self.full = true;
            return Err(EndFault);
        }
        self.bytes.put(&bytes[..bytes.len().min(left)])
    }

    fn failed(&self) -> bool {
        self.full || self.bytes.failed()
    }
}
