//! Bytes and numbers at a place.

ghost use Rattle.std.specs.Prelude.{◌≡◌, ◌+◌, ◌^◌, ◌<◌, ◌≤◌, drop, length, slice_index, take};
ghost use Rattle.later_demos.specs.Numbers.{big16_at, big32_at, little32_at};

/// The byte at a place, or 0 where there is none.
#[inline]
pub(crate) fn byte_at(bytes: &[u8], at: usize) -> u8
    ensures { result ≡ slice_index bytes.now at }
{
    if at < bytes.len() { bytes[at] } else { 0 }
}

/// Of so many bytes from a place on those that are there.
pub(crate) fn part_of(bytes: &[u8], at: usize, count: usize) -> &[u8]
    requires { at + count < 2 ^ 64 }
    ensures { result.now ≡ take count (drop at bytes.now) }
{
    let from = at.min(bytes.len());
    let to = (at + count).min(bytes.len());
    &bytes[from..to]
}

/// The number of the two bytes at a place, the highest first.
#[tactic(auto, unfolding(le_rec::specs::Number::unsigned16))]
pub(crate) fn big16_at(bytes: &[u8], at: usize) -> u16
    requires { at < 2 ^ 32 }
    ensures { result ≡ big16_at bytes.now at }
{
    u16::from_be_bytes([byte_at(bytes, at), byte_at(bytes, at + 1)])
}

/// The number of the four bytes at a place, the highest first.
#[tactic(auto, unfolding(le_rec::specs::Number::unsigned32))]
pub(crate) fn big32_at(bytes: &[u8], at: usize) -> u32
    requires { at < 2 ^ 32 }
    ensures { result ≡ big32_at bytes.now at }
{
    u32::from_be_bytes([
        byte_at(bytes, at),
        byte_at(bytes, at + 1),
        byte_at(bytes, at + 2),
        byte_at(bytes, at + 3),
    ])
}

/// The number of the four bytes at a place, the lowest first.
#[tactic(auto, unfolding(le_rec::specs::Number::unsigned32))]
pub(crate) fn little32_at(bytes: &[u8], at: usize) -> u32
    requires { at < 2 ^ 32 }
    ensures { result ≡ little32_at bytes.now at }
{
    u32::from_le_bytes([
        byte_at(bytes, at),
        byte_at(bytes, at + 1),
        byte_at(bytes, at + 2),
        byte_at(bytes, at + 3),
    ])
}
