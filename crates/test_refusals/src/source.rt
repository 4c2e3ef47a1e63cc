//! A source over a slice, and one that has no end.
ghost use Rattle.std.specs.Prelude.{◌≡◌, ◌-◌, ◌<◌, ◌≤◌, false, None, Ok, IfOk, length, replicate};
ghost use Rattle.le_rec.specs.Source.{Gives};

use super::countdown::is_failing_call;
use le_rec::{EndFault, Source};

/// A source over a slice. It gives all that a pull has room for, until `at_most` and `failing_at`
/// say otherwise.
#[derive(Drop)]
pub struct SliceSource<'a> {
    rest: &'a [u8],
    most: usize,
    // The calls up to the one that fails, that one too; 0 where none does.
    calls: u32,
    failed: bool,
    ghost some: { 0 < most },
}

impl<'a> SliceSource<'a> {
    ghost use Rattle.test_refusals.specs.SliceSource.{bytes_left, failing_pull, most_pulled, pull_failed};

    /// A source of `bytes` that hasn't failed.
    pub fn new(bytes: &'a [u8]) -> Self
        ensures left { bytes_left result ≡ bytes.now }
        ensures most { most_pulled result ≡ usize.MAX }
        ensures failing { failing_pull result ≡ 0 }
        ensures fresh { pull_failed result ≡ false }
    {
        SliceSource {
            rest: bytes,
            most: usize::MAX,
            calls: 0,
            failed: false,
        }
    }

    /// The same source, giving at most `most` bytes a pull.
    pub fn at_most(mut self, most: usize) -> Self
        requires { 0 < most }
        ensures left { bytes_left result ≡ bytes_left self.entry }
        ensures most { most_pulled result ≡ most }
        ensures failing { failing_pull result ≡ failing_pull self.entry }
        ensures failed { pull_failed result ≡ pull_failed self.entry }
    {
        self.most = most;
        self
    }

    /// The same source, failing at its pull `call` from here on, counted from 1, and at no other.
    pub fn failing_at(mut self, call: u32) -> Self
        ensures left { bytes_left result ≡ bytes_left self.entry }
        ensures most { most_pulled result ≡ most_pulled self.entry }
        ensures failing { failing_pull result ≡ call }
        ensures failed { pull_failed result ≡ pull_failed self.entry }
    {
        self.calls = call;
        self
    }

    /// The bytes that are still to come.
    pub fn left(&self) -> &[u8]
        ensures { result.now ≡ bytes_left self.now }
    {
        self.rest
    }
}

impl Source for SliceSource<'_> {
    ghost use Rattle.test_refusals.specs.SliceSource.{failing_pull, most_pulled, pull_answer, state_of};

    ghost state = { state_of };

    fn pull(&mut self, buf: &mut [u8]) -> Result<usize, EndFault>
        ensures bound { IfOk result (λ n. n ≤ length buf.new) }
        ensures gives { Gives (state_of self.old) (state_of self.new) result buf.new }
        ensures answer { result ≡ pull_answer self.old (length buf.old) }
        ensures most { most_pulled self.new ≡ most_pulled self.old }
        ensures failing { failing_pull self.new ≡ failing_pull self.old - 1 }
    {
        if is_failing_call(&mut self.calls) {
            self.failed = true;
            return Err(EndFault);
        }
        let rest = self.rest;
        let count = buf.len().min(self.most).min(rest.len());
        buf[..count].copy_from_slice(&rest[..count]);
        self.rest = &rest[count..];
        Ok(count)
    }

    fn failed(&self) -> bool {
        self.failed
    }
}

/// A source that gives one byte value for ever and never fails. Its bytes have no end, so they are
/// no list that a clause could see.
#[derive(Clone, Copy)]
pub struct RepeatSource {
    pub byte: u8,
}

impl Source for RepeatSource {
    ghost state = { λ _. record { left = None; failed = false } };

    fn pull(&mut self, buf: &mut [u8]) -> Result<usize, EndFault>
        ensures all { result ≡ Ok (length buf.new) }
        ensures filled { buf.new ≡ replicate (length buf.old) self.old.byte }
        ensures unchanged { self.new ≡ self.old }
    {
        buf.fill(self.byte);
        Ok(buf.len())
    }

    fn failed(&self) -> bool {
        false
    }
}
