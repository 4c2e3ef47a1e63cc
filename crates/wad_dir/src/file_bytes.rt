//! The bytes of a file, wherever they lie.

use std::alloc::Allocator;

/// What has the bytes of a file: a vector, or a slice that its owner lends.
pub trait AsBytes {
    ghost use Rattle.std.specs.Prelude.{◌≡◌, ℕ, List};

    /// The bytes.
    ghost bytes: { Self → List ℕ };

    /// The bytes.
    fn as_bytes(&self) -> &[u8]
        ensures { result.now ≡ bytes self.now };
}

impl<A: Allocator> AsBytes for Vec<u8, A> {
    ghost bytes = { λ file. file.items };

    fn as_bytes(&self) -> &[u8] {
        self.as_slice()
    }
}

impl AsBytes for &[u8] {
    ghost bytes = { λ file. file.now };

    fn as_bytes(&self) -> &[u8] {
        self
    }
}
