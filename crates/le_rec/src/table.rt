//! Tables of records, which borrow their bytes.

ghost use Rattle.std.specs.Prelude.{◌≡◌, ◌<◌, ◌/◌, Some, length};
ghost use Rattle.std.specs.List.{slice_get};
ghost use Rattle.le_rec.specs.Layout.{read_by};
ghost use Rattle.le_rec.specs.Table.{records_of, rows_of};

use crate::record::Record;
use std::marker::{Model, PhantomData};

/// Records one after another, decoded from the borrowed bytes at each call. The bytes after the
/// last whole record are left over.
#[derive(Drop)]
pub struct Table<'a, R: Record> {
    bytes: &'a [u8],
    kind: PhantomData<R>,
}

impl<'a, R: Record> Model for Table<'a, R> {
    ghost use Rattle.le_rec.specs.Layout.{read_by};
    ghost use Rattle.le_rec.specs.Table.{Rows, rows_of};

    ghost Value = { Rows R };

    ghost view = { λ a. rows_of R.SIZE (read_by R.layout) a.bytes.now };
}

impl<'a, R: Record> Table<'a, R> {
    /// The table that the bytes hold.
    #[inline]
    pub fn of(bytes: &'a [u8]) -> Table<'a, R>
        ensures { result ≡ rows_of R.SIZE (read_by R.layout) bytes.now }
    {
        Table {
            bytes,
            kind: PhantomData,
        }
    }

    /// The number of whole records.
    #[inline]
    pub fn len(&self) -> usize
        ensures { result ≡ length self.now.records }
    {
        self.bytes.len() / R::SIZE
    }

    /// The record of a number, counted from 0, or None if there are fewer records.
    #[inline]
    pub fn get(&self, index: usize) -> Option<R>
        ensures { result ≡ slice_get self.now.records index }
    {
        record_at(self.bytes, index)
    }

    /// The record of a number that is known to be below the length.
    #[inline]
    pub fn at(&self, index: usize) -> R
        requires { index < length self.now.records }
        ensures { slice_get self.now.records index ≡ Some result }
    {
        record_within(self.bytes, index)
    }

    /// How many bytes are left over.
    #[inline]
    pub fn rest(&self) -> usize
        ensures { result ≡ self.now.rest }
    {
        self.bytes.len() % R::SIZE
    }
}

#[inline]
fn record_at<R: Record>(bytes: &[u8], index: usize) -> Option<R>
    ensures { result ≡ slice_get (records_of R.SIZE (read_by R.layout) bytes.now) index }
{
    if index >= bytes.len() / R::SIZE {
        return None;
    }
    Some(record_within(bytes, index))
}

#[inline]
fn record_within<R: Record>(bytes: &[u8], index: usize) -> R
    requires { index < length bytes.now / R.SIZE }
    ensures { slice_get (records_of R.SIZE (read_by R.layout) bytes.now) index ≡ Some result }
{
    let size = R::SIZE;
    let start = index * size;
    R::read(&bytes[start..start + size])
}
