//! The bytes of one record among records of a size.

ghost use Rattle.std.specs.Prelude.{◌≡◌, ◌<◌, ◌≤◌, ◌/◌, Some, IfSome, IfNone, length};
ghost use Rattle.std.specs.List.{slice_get};
ghost use Rattle.le_rec.specs.Table.{piece};
ghost use Rattle.node_lumps.specs.Later.{counts_of};

use crate::number::u32_at;

/// The bytes of the record of a number, counted from 0, among records of a size; None where there are fewer.
#[inline]
pub(crate) fn piece_at(bytes: &[u8], size: usize, index: usize) -> Option<&[u8]>
    requires { 0 < size }
    ensures is { IfSome result (λ found. found.now ≡ piece size bytes.now index) }
    ensures long { IfSome result (λ found. length found.now ≡ size) }
    ensures within { IfSome result (λ _. index < length bytes.now / size) }
    ensures none { IfNone result (length bytes.now / size ≤ index) }
{
    if index >= bytes.len() / size {
        return None;
    }
    Some(piece_within(bytes, size, index))
}

// The bytes of the record of a number that is known to be below how many there are.
#[inline]
fn piece_within(bytes: &[u8], size: usize, index: usize) -> &[u8]
    requires some { 0 < size }
    requires there { index < length bytes.now / size }
    ensures is { result.now ≡ piece size bytes.now index }
    ensures long { length result.now ≡ size }
{
    let start = index * size;
    &bytes[start..start + size]
}

/// The count of a number among counts of four bytes each.
#[inline]
#[tactic(auto, using(crate::proofs::RecordLemmas::count_found))]
pub(crate) fn count_at(counts: &[u8], index: usize) -> u32
    requires { index < length counts.now / 4 }
    ensures { slice_get (counts_of counts.now) index ≡ Some result }
{
    u32_at(piece_within(counts, 4, index), 0)
}
