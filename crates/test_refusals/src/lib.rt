//! What refuses, for tests alone: an allocator that refuses a chosen growth, and sources and sinks over memory that move a few
//! bytes a call and fail at a chosen call.
//!
//! A test runs a call with growth 1 refused, then growth 2, and so on until a run meets no refusal.
#![tactic(auto)]

mod countdown;
mod sink;
mod source;

ghost use Rattle.std.specs.Prelude.{◌≡◌, ◌<◌, IsTrue};

pub use sink::SliceSink;
pub use source::{RepeatSource, SliceSource};
use std::alloc::{AllocError, Allocator, Global};
use std::cell::Cell;

/// Which growth is refused, from 1, and how many were asked for.
#[derive(Drop)]
struct Count {
    refused: u64,
    growths: Cell<u64>,
}

fn is_granted(count: &Count) -> bool {
    let growth = count.growths.get().wrapping_add(1);
    count.growths.set(growth);
    growth != count.refused
}

/// An allocator over another one: it refuses one growth, by its number, and grants the others. Collections get a `&` to it.
#[derive(Drop)]
pub struct Refusing<B: Allocator = Global> {
    inner: B,
    count: Count,
}

impl<B: Allocator> Refusing<B> {
    /// Refuses growth number `refused`, counted from 1; with 0 it refuses none.
    pub fn new(inner: B, refused: u64) -> Refusing<B>
        ensures over { result.inner ≡ inner }
        ensures refuses { result.count.refused ≡ refused }
    {
        Refusing {
            inner,
            count: Count {
                refused,
                growths: Cell::new(0),
            },
        }
    }

    /// Whether the growth that it refuses was asked for.
    pub fn has_refused(&self) -> bool
        ensures { IsTrue result → 0 < self.now.count.refused }
    {
        self.count.refused > 0 && self.count.growths.get() >= self.count.refused
    }
}

unsafe impl<B: Allocator> Allocator for Refusing<B> {
    ghost dealloc_token = { λ heap ty ptr. B.dealloc_token heap.inner ty ptr };

    fn allocate(&self, size: usize, align: usize) -> Result<*mut u8, AllocError> {
        if is_granted(&self.count) {
            return self.inner.allocate(size, align);
        } else {
            return Err(AllocError);
        }
    }

    unsafe fn deallocate(&self, ptr: *mut u8, size: usize, align: usize) {
        self.inner.deallocate(ptr, size, align);
    }
}
