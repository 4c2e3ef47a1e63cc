//! Reports on how far a run is.

use std::alloc::Allocator;

/// Learns how far a run is. No clause speaks of what it shows, and its own failures don't end the
/// run.
pub trait Watch {
    /// A file is done, the one with these bytes.
    fn add<A: Allocator + Copy>(&mut self, alloc: A, bytes: &[u8]);

    /// One more file is done, a refused one.
    fn add_refused(&mut self);

    /// A message is about to be written to standard error.
    fn clear(&mut self);

    /// All files are done.
    fn finish(&mut self);
}

/// A watch that shows nothing.
#[derive(Clone, Copy, Debug, PartialEq, Eq)]
pub struct Unwatched;

impl Watch for Unwatched {
    fn add<A: Allocator + Copy>(&mut self, _alloc: A, _bytes: &[u8]) {}

    fn add_refused(&mut self) {}

    fn clear(&mut self) {}

    fn finish(&mut self) {}
}
