//! Ends of streams: a `Source` gives bytes, a `Sink` takes them, and each says whether it has
//! failed.

use thiserror::Error;

/// A pull or a put that failed. From then on, `failed` of the end is true.
#[derive(Clone, Copy, Debug, PartialEq, Eq, Error)]
#[error("the stream failed")]
pub struct EndFault;

/// Where bytes come from, such as a slice, a file or standard input.
pub trait Source {
    ghost use Rattle.std.specs.Prelude.{◌≡◌, ◌≤◌, IfOk, length};
    ghost use Rattle.le_rec.specs.Source.{SourceState, Gives};

    /// What clauses see of it: the bytes still to come, if they are known, and whether a pull has failed.
    ghost state: { Self → SourceState };

    /// Moves the next bytes to the front of `buf` and returns how many: 0 only for an empty `buf` or at
    /// the end. What `buf` has behind them isn't known. On Err it moves none, and `buf` may hold
    /// anything.
    fn pull(&mut self, buf: &mut [u8]) -> Result<usize, EndFault>
        ensures bound { IfOk result (λ n. n ≤ length buf.new) }
        ensures gives { Gives (state self.old) (state self.new) result buf.new };

    /// Whether a pull has failed, now or earlier.
    fn failed(&self) -> bool
        ensures { result ≡ (state self.now).failed };
}

/// Where bytes go, such as a buffer, a file or standard output.
pub trait Sink {
    ghost use Rattle.std.specs.Prelude.{◌≡◌, ◌≤◌, IfOk, length};
    ghost use Rattle.le_rec.specs.Sink.{SinkState, Takes};

    /// What clauses see of it: the bytes that it has taken, where they are known, and whether a put
    /// has failed.
    ghost state: { Self → SinkState };

    /// Takes a front of `bytes` and returns its length, 0 only for empty `bytes`. On Err it takes none.
    fn put(&mut self, bytes: &[u8]) -> Result<usize, EndFault>
        ensures bound { IfOk result (λ n. n ≤ length bytes.now) }
        ensures takes { Takes (state self.old) (state self.new) result bytes.now };

    /// Whether a put has failed, now or earlier.
    fn failed(&self) -> bool
        ensures { result ≡ (state self.now).failed };
}
