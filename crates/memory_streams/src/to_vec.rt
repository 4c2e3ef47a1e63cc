//! A growing vector as a sink.
ghost use Rattle.std.specs.Prelude.{◌≡◌, ◌+◌, ◌<◌, ◌≤◌, false, [], IfOk, OnErr, length};
ghost use Rattle.le_rec.specs.Sink.{Takes};

use le_rec::{EndFault, Sink};
use std::alloc::{AllocError, Allocator, Global};
use std::marker::Model;

/// A growing vector as a sink. A put takes all bytes. It fails, and takes none, if it needs room
/// and the growth is refused.
#[derive(Drop)]
pub struct ToVec<A: Allocator = Global> {
    bytes: Vec<u8, A>,
    failed: bool,
}

impl<A: Allocator> Model for ToVec<A> {
    ghost use Rattle.std.specs.Prelude.{◌-◌, vec_capacity, vec_len};
    ghost use Rattle.memory_streams.specs.ToVec as to_vec;

    ghost Value = { to_vec.ToVec };

    ghost view = { λ s. record {
      taken = s.bytes.items;
      room = vec_capacity s.bytes - vec_len s.bytes;
      failed = s.failed;
    } };
}

impl<A: Allocator> ToVec<A> {
    /// A sink that has taken nothing and hasn't failed. It asks for room when it needs some.
    pub fn new(alloc: A) -> Self
        ensures taken { result.taken ≡ [] }
        ensures fresh { result.failed ≡ false }
    {
        ToVec {
            bytes: Vec::new(alloc),
            failed: false,
        }
    }

    /// A sink that has taken nothing, hasn't failed, and has room for so many bytes: no put of them
    /// fails. An Err where that growth is refused.
    pub fn with_capacity(alloc: A, room: usize) -> Result<Self, AllocError>
        ensures taken { IfOk result (λ sink. sink.taken ≡ []) }
        ensures room { IfOk result (λ sink. room ≤ sink.room) }
        ensures fresh { IfOk result (λ sink. sink.failed ≡ false) }
    {
        Ok(ToVec {
            bytes: Vec::with_capacity(alloc, room)?,
            failed: false,
        })
    }

    /// The bytes that it has taken.
    pub fn taken(&self) -> &[u8]
        ensures { result.now ≡ self.now.taken }
    {
        &self.bytes
    }

    /// The bytes that it has taken, as the vector that they were put into.
    pub fn into_vec(self) -> Vec<u8, A>
        ensures { result.items ≡ self.taken }
    {
        self.bytes
    }
}

impl<A: Allocator> Sink for ToVec<A> {
    ghost use Rattle.memory_streams.specs.ToVec.{state_of};

    ghost state = { state_of };

    fn put(&mut self, bytes: &[u8]) -> Result<usize, EndFault>
        ensures bound { IfOk result (λ n. n ≤ length bytes.now) }
        ensures takes { Takes (state_of self.old) (state_of self.new) result bytes.now }
        ensures all { IfOk result (λ n. n ≡ length bytes.now) }
        ensures full { OnErr result (self.old.room < length bytes.now) }
        ensures room { IfOk result (λ n. self.old.room ≤ self.new.room + n) }
        ensures room_at_fault { OnErr result (self.old.room ≤ self.new.room) }
    {
        match self.bytes.extend_from_slice(bytes) {
            Ok(()) => Ok(bytes.len()),
            Err(_) => {
                self.failed = true;
                Err(EndFault)
            }
        }
    }

    fn failed(&self) -> bool {
        self.failed
    }
}
