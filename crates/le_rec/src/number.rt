//! Numbers, magics and names at an offset of a record's bytes.

ghost use Rattle.std.specs.Prelude.{◌≡◌, ◌+◌, ◌≤◌, ◌++◌, drop, length, take};
ghost use Rattle.le_rec.specs.Number.{unsigned16_at, signed16_at, signed32_at, magic_at, name_at};
ghost use Rattle.le_rec.specs.Number.{bytes16, signed_bytes16, signed_bytes32};
ghost use Rattle.le_rec.specs.FieldBytes.{box_at, box_bytes, magic_bytes, name_bytes};

use byteorder::{ByteOrder, LittleEndian};

/// The unsigned number of the two bytes at `at`.
#[inline]
#[tactic(auto, unfolding(crate::specs::Number::unsigned16))]
pub fn u16_at(bytes: &[u8], at: usize) -> u16
    requires { at + 2 ≤ length bytes.now }
    ensures { result ≡ unsigned16_at bytes.now at }
{
    LittleEndian::read_u16(&bytes[at..])
}

/// The signed number of the two bytes at `at`.
#[inline]
pub fn i16_at(bytes: &[u8], at: usize) -> i16
    requires { at + 2 ≤ length bytes.now }
    ensures { result ≡ signed16_at bytes.now at }
{
    LittleEndian::read_i16(&bytes[at..])
}

/// The signed number of the four bytes at `at`.
#[inline]
pub fn i32_at(bytes: &[u8], at: usize) -> i32
    requires { at + 4 ≤ length bytes.now }
    ensures { result ≡ signed32_at bytes.now at }
{
    LittleEndian::read_i32(&bytes[at..])
}

/// The four bytes of the magic at `at`, which tells the kind of a file.
#[inline]
pub fn magic_bytes_at(bytes: &[u8], at: usize) -> [u8; 4]
    requires { at + 4 ≤ length bytes.now }
    ensures { result ≡ magic_at bytes.now at }
{
    let mut magic = [0; 4];
    magic.copy_from_slice(&bytes[at..at + 4]);
    magic
}

/// The eight bytes of the name at `at`.
#[inline]
pub(crate) fn name_bytes_at(bytes: &[u8], at: usize) -> [u8; 8]
    requires { at + 8 ≤ length bytes.now }
    ensures { result ≡ name_at bytes.now at }
{
    let mut name = [0; 8];
    name.copy_from_slice(&bytes[at..at + 8]);
    name
}

/// Writes the two bytes of an unsigned number at `at`.
pub(crate) fn put_u16(bytes: &mut [u8], at: usize, number: u16)
    requires { at + 2 ≤ length bytes.old }
    ensures front { take (at + 2) bytes.new ≡ take at bytes.old ++ bytes16 number }
    ensures rest { drop (at + 2) bytes.new ≡ drop (at + 2) bytes.old }
{
    LittleEndian::write_u16(&mut bytes[at..], number);
}

/// Writes the two bytes of a signed number at `at`.
pub(crate) fn put_i16(bytes: &mut [u8], at: usize, number: i16)
    requires { at + 2 ≤ length bytes.old }
    ensures front { take (at + 2) bytes.new ≡ take at bytes.old ++ signed_bytes16 number }
    ensures rest { drop (at + 2) bytes.new ≡ drop (at + 2) bytes.old }
{
    LittleEndian::write_i16(&mut bytes[at..], number);
}

/// Writes the four bytes of a signed number at `at`.
pub fn put_i32(bytes: &mut [u8], at: usize, number: i32)
    requires { at + 4 ≤ length bytes.old }
    ensures front { take (at + 4) bytes.new ≡ take at bytes.old ++ signed_bytes32 number }
    ensures rest { drop (at + 4) bytes.new ≡ drop (at + 4) bytes.old }
{
    LittleEndian::write_i32(&mut bytes[at..], number);
}

/// Writes the four bytes of a magic at `at`.
pub fn put_magic(bytes: &mut [u8], at: usize, magic: &[u8; 4])
    requires { at + 4 ≤ length bytes.old }
    ensures front { take (at + 4) bytes.new ≡ take at bytes.old ++ magic_bytes magic.now }
    ensures rest { drop (at + 4) bytes.new ≡ drop (at + 4) bytes.old }
{
    bytes[at..at + 4].copy_from_slice(magic);
}

/// Writes the eight bytes of a name at `at`.
pub(crate) fn put_name(bytes: &mut [u8], at: usize, name: &[u8; 8])
    requires { at + 8 ≤ length bytes.old }
    ensures front { take (at + 8) bytes.new ≡ take at bytes.old ++ name_bytes name.now }
    ensures rest { drop (at + 8) bytes.new ≡ drop (at + 8) bytes.old }
{
    bytes[at..at + 8].copy_from_slice(name);
}

/// The four numbers of the bounding box at `at`: top, bottom, left, right.
#[inline]
pub(crate) fn box_numbers_at(bytes: &[u8], at: usize) -> [i16; 4]
    requires { at + 8 ≤ length bytes.now }
    ensures { result ≡ box_at bytes.now at }
{
    [
        i16_at(bytes, at),
        i16_at(bytes, at + 2),
        i16_at(bytes, at + 4),
        i16_at(bytes, at + 6),
    ]
}

/// Writes the eight bytes of the four numbers of a bounding box at `at`.
pub(crate) fn put_box(bytes: &mut [u8], at: usize, numbers: &[i16; 4])
    requires { at + 8 ≤ length bytes.old }
    ensures front { take (at + 8) bytes.new ≡ take at bytes.old ++ box_bytes numbers.now }
    ensures rest { drop (at + 8) bytes.new ≡ drop (at + 8) bytes.old }
{
    put_i16(bytes, at, numbers[0]);
    put_i16(bytes, at + 2, numbers[1]);
    put_i16(bytes, at + 4, numbers[2]);
    put_i16(bytes, at + 6, numbers[3]);
}
