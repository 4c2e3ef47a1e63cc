//! A slice as a source.
ghost use Rattle.std.specs.Prelude.{◌≡◌, ◌≤◌, Ok, IfOk, drop, length, min, take};
ghost use Rattle.le_rec.specs.Source.{Gives};

use le_rec::{EndFault, Source};

/// A slice as a source. A pull fills all the room that it is given, as far as there are bytes. No
/// pull fails.
#[derive(Clone, Copy)]
pub struct FromSlice<'a> {
    rest: &'a [u8],
}

impl<'a> FromSlice<'a> {
    ghost use Rattle.memory_streams.specs.FromSlice.{bytes_left};

    /// A source of `bytes`.
    pub fn new(bytes: &'a [u8]) -> Self
        ensures { bytes_left result ≡ bytes.now }
    {
        FromSlice { rest: bytes }
    }

    /// The bytes that are still to come.
    pub fn left(&self) -> &'a [u8]
        ensures { result.now ≡ bytes_left self.now }
    {
        self.rest
    }
}

impl Source for FromSlice<'_> {
    ghost use Rattle.memory_streams.specs.FromSlice.{bytes_left, state_of};

    ghost state = { state_of };

    fn pull(&mut self, buf: &mut [u8]) -> Result<usize, EndFault>
        ensures bound { IfOk result (λ n. n ≤ length buf.new) }
        ensures gives { Gives (state_of self.old) (state_of self.new) result buf.new }
        ensures all { result ≡ Ok (min (length buf.old) (length (bytes_left self.old))) }
        ensures moved { IfOk result (λ n. take n buf.new ≡ take n (bytes_left self.old)) }
        ensures left { IfOk result (λ n. bytes_left self.new ≡ drop n (bytes_left self.old)) }
    {
        let count = buf.len().min(self.rest.len());
        let (given, rest) = self.rest.split_at(count);
        buf[..count].copy_from_slice(given);
        self.rest = rest;
        Ok(count)
    }

    fn failed(&self) -> bool {
        false
    }
}
