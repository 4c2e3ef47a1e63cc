//! The bit of a level's REJECT as linuxdoom 1.10 looks it up, on numbers of 32 bits.

ghost use Rattle.std.specs.Prelude.{◌≡◌, ◌<◌, ◌+◌, ◌*◌, ◌^◌, pos};
ghost use Rattle.map_tables.specs.Reject.{bits_of, sight_bit};
ghost use Rattle.released.specs.CheckSight.{byte_at, released_pair, released_mask, released_sight_bit};

/// P_CheckSight of p_sight.c, as far as REJECT decides: whether the bit of sectors s1 and s2 is set, or None where the
/// game reads past the lump.
pub fn released_sight_bit(bytes: &[u8], sectors: i32, s1: i32, s2: i32) -> Option<bool>
    ensures { result ≡ released_sight_bit bytes.now sectors s1 s2 }
{
    let pair = pair_number(sectors, s1, s2);
    let byte = byte_at(bytes, pair >> 3)?;
    Some(i32::from(byte) & mask(pair) != 0)
}

/// The bit that the released game looks up, for numbers that it holds: the sight bit as defined.
pub fn released_sight_bit_at(bytes: &[u8], sectors: u32, a: u32, b: u32) -> Option<bool>
    requires sectors_fit { sectors < 2 ^ 31 }
    requires from_fits { a < 2 ^ 31 }
    requires pair_fits { a * sectors + b < 2 ^ 31 }
    ensures released { result ≡ released_sight_bit bytes.now (pos sectors) (pos a) (pos b) }
    ensures defined { result ≡ sight_bit (record { bits = bits_of bytes.now; sectors = sectors }) a b }
{
    released_sight_bit(bytes, sectors as i32, a as i32, b as i32)
}

// The number of the pair.
fn pair_number(sectors: i32, s1: i32, s2: i32) -> i32
    ensures { result ≡ released_pair sectors s1 s2 }
{
    s1.wrapping_mul(sectors).wrapping_add(s2)
}

// The byte at an index, or None where the lump has none there.
fn byte_at(bytes: &[u8], index: i32) -> Option<u8>
    ensures { result ≡ byte_at bytes.now index }
{
    if index < 0 {
        return None;
    }
    bytes.get(index as usize).copied()
}

// The pair's bit in its byte.
fn mask(pair: i32) -> i32
    ensures { result ≡ released_mask pair }
{
    1 << (pair & 7)
}
