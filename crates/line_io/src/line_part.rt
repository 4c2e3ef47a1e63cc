//! The part of a line that has been read.
ghost use Rattle.std.specs.Prelude.{◌≡◌, ℕ, ◌≤◌, List, [], ◌++◌, length, take, IsTrue, ◌↔◌};

use std::marker::Model;

/// The first bytes of a line that began in an earlier block. 66 are enough to answer it: they hold
/// a content of 64 bytes and a byte 13, or show that the content is longer.
pub const KEPT: usize = 66;

/// What is kept of a line: at most its first `KEPT` bytes.
#[derive(Drop)]
pub struct LinePart {
    bytes: [u8; KEPT],
    len: usize,
}

impl Model for LinePart {
    ghost use Rattle.std.specs.Prelude.{ℕ, ◌≤◌, List, take};
    ghost use Rattle.line_io.specs.declared.line_part.TheConstants.{KEPT};

    ghost Value = { List ℕ };

    ghost view = { λ p. take p.len p.bytes };

    ghost invariant = { λ p. p.len ≤ KEPT };
}

impl LinePart {
    /// A part of no bytes.
    pub fn new() -> Self
        ensures { result ≡ [] }
    {
        LinePart {
            bytes: [0; KEPT],
            len: 0,
        }
    }

    /// The bytes that are kept.
    pub fn bytes(&self) -> &[u8]
        ensures { result.now ≡ self.now }
    {
        &self.bytes[..self.len]
    }

    /// Whether no byte is kept.
    pub fn is_empty(&self) -> bool
        ensures { IsTrue result ↔ (self.now ≡ []) }
    {
        self.len == 0
    }

    /// Adds `more` as far as there is room.
    pub fn keep(&mut self, more: &[u8])
        ensures { self.new ≡ take KEPT (self.old ++ more.now) }
    {
        let count = more.len().min(KEPT - self.len);
        let end = self.len + count;
        self.bytes[self.len..end].copy_from_slice(&more[..count]);
        self.len = end;
    }

    /// Drops all bytes.
    pub fn clear(&mut self)
        ensures { self.new ≡ [] }
    {
        self.len = 0;
    }
}
