//! A sink over a borrowed buffer.
ghost use Rattle.std.specs.Prelude.{◌≡◌, ◌+◌, ◌-◌, ◌<◌, ◌≤◌, false, [], IfOk, OnErr, length};
ghost use Rattle.le_rec.specs.Sink.{Takes};

use super::countdown::is_failing_call;
use le_rec::{EndFault, Sink};

/// A sink over a borrowed buffer. It takes all that the buffer has room for, until `at_most` and
/// `failing_at` say otherwise, and fails once the buffer is full: over n bytes it takes n and then
/// fails.
#[derive(Drop)]
pub struct SliceSink<'a> {
    buffer: &'a mut [u8],
    count: usize,
    most: usize,
    // The calls up to the one that fails, that one too; 0 where none does.
    calls: u32,
    failed: bool,
    ghost some: { 0 < most },
    ghost within: { count ≤ length buffer.now },
}

impl<'a> SliceSink<'a> {
    ghost use Rattle.test_refusals.specs.SliceSink.{bytes_taken, failing_put, most_put, put_failed, room_left};

    /// A sink that writes to the front of `buffer`, has taken nothing and hasn't failed.
    pub fn new(buffer: &'a mut [u8]) -> Self
        ensures taken { bytes_taken result ≡ [] }
        ensures room { room_left result ≡ length buffer.old }
        ensures most { most_put result ≡ usize.MAX }
        ensures failing { failing_put result ≡ 0 }
        ensures fresh { put_failed result ≡ false }
    {
        SliceSink {
            buffer,
            count: 0,
            most: usize::MAX,
            calls: 0,
            failed: false,
        }
    }

    /// The same sink, taking at most `most` bytes a put.
    pub fn at_most(mut self, most: usize) -> Self
        requires { 0 < most }
        ensures taken { bytes_taken result ≡ bytes_taken self.entry }
        ensures room { room_left result ≡ room_left self.entry }
        ensures most { most_put result ≡ most }
        ensures failing { failing_put result ≡ failing_put self.entry }
        ensures failed { put_failed result ≡ put_failed self.entry }
    {
        self.most = most;
        self
    }

    /// The same sink, failing at its put `call` from here on, counted from 1, and at no other while
    /// there is room.
    pub fn failing_at(mut self, call: u32) -> Self
        ensures taken { bytes_taken result ≡ bytes_taken self.entry }
        ensures room { room_left result ≡ room_left self.entry }
        ensures most { most_put result ≡ most_put self.entry }
        ensures failing { failing_put result ≡ call }
        ensures failed { put_failed result ≡ put_failed self.entry }
    {
        self.calls = call;
        self
    }

    /// The bytes that it has taken.
    pub fn taken(&self) -> &[u8]
        ensures { result.now ≡ bytes_taken self.now }
    {
        &self.buffer[..self.count]
    }
}

impl Sink for SliceSink<'_> {
    ghost use Rattle.test_refusals.specs.SliceSink.{failing_put, most_put, put_answer, room_left, state_of};

    ghost state = { state_of };

    fn put(&mut self, bytes: &[u8]) -> Result<usize, EndFault>
        ensures bound { IfOk result (λ n. n ≤ length bytes.now) }
        ensures takes { Takes (state_of self.old) (state_of self.new) result bytes.now }
        ensures answer { result ≡ put_answer self.old (length bytes.now) }
        ensures room { IfOk result (λ n. room_left self.new + n ≡ room_left self.old) }
        ensures room_at_fault { OnErr result (room_left self.new ≡ room_left self.old) }
        ensures most { most_put self.new ≡ most_put self.old }
        ensures failing { failing_put self.new ≡ failing_put self.old - 1 }
    {
        let room = self.buffer.len() - self.count;
        if is_failing_call(&mut self.calls) || (room == 0 && !bytes.is_empty()) {
            self.failed = true;
            return Err(EndFault);
        }
        let count = bytes.len().min(self.most).min(room);
        let end = self.count + count;
        self.buffer[self.count..end].copy_from_slice(&bytes[..count]);
        self.count = end;
        Ok(count)
    }

    fn failed(&self) -> bool {
        self.failed
    }
}
