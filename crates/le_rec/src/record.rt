//! The trait of records of a fixed number of bytes.

/// A record of a fixed number of bytes, as WAD files and level lumps hold them one after another.
pub trait Record: Copy {
    ghost use Rattle.std.specs.Prelude.{◌≡◌, ℕ, ◌<◌, length};
    ghost use Rattle.le_rec.specs.Layout.{Layout, size_of, read_by, bytes_by};

    ghost SIZE: { ℕ };

    /// The record's fields, in order and without gaps.
    ghost layout: { Layout Self };

    /// The number of bytes of a record, above 0.
    const SIZE: usize;

    /// The record that the bytes hold.
    fn read(bytes: &[u8]) -> Self
        requires { length bytes.now ≡ SIZE }
        ensures { result ≡ read_by layout bytes.now };

    /// Writes the record's bytes over all of `bytes`.
    fn write(&self, bytes: &mut [u8])
        requires { length bytes.old ≡ SIZE }
        ensures { bytes.new ≡ bytes_by layout self.now };

    ghost size_above_zero: { 0 < SIZE };

    ghost sized: { SIZE ≡ size_of layout };
}
