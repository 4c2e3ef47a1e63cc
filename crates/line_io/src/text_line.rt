//! The text of an answer line.

ghost use Rattle.std.specs.Prelude.{◌≡◌, ◌+◌, ◌≤◌, [], ◌++◌, decimal, drop, length};
ghost use Rattle.std.specs.Fmt.{signed_decimal};

use crate::digits::three_digits;
use itoa::write_digits;
use std::marker::Model;

/// The most bytes of a [`TextLine`], 144.
pub const ROOM: usize = 144;

/// A line of text that is built on the stack. It is filled from its end to its start, so that the digits of a number are
/// written in their place at once. Contracts see the bytes so far.
#[derive(Drop)]
pub struct TextLine {
    bytes: [u8; ROOM],
    start: usize,
}

impl Model for TextLine {
    ghost use Rattle.std.specs.Prelude.{◌≡◌, ◌≤◌, List, ℕ, drop, length};
    ghost use Rattle.line_io.specs.declared.text_line.TheConstants.{ROOM};

    ghost Value = { List ℕ };

    ghost view = { λ line. drop line.start line.bytes };

    ghost invariant = { λ line. (line.start ≤ ROOM) × (length line.bytes ≡ ROOM) };
}

impl TextLine {
    /// The empty line.
    #[inline]
    pub fn new() -> Self
        ensures { result ≡ [] }
    {
        TextLine {
            bytes: [0; ROOM],
            start: ROOM,
        }
    }

    /// Empties the line.
    #[inline]
    pub fn clear(&mut self)
        ensures { self.new ≡ [] }
    {
        self.start = ROOM;
    }

    /// The bytes so far.
    #[inline]
    pub fn as_bytes(&self) -> &[u8]
        ensures { result.now ≡ self.now }
    {
        &self.bytes[self.start..]
    }

    /// Puts bytes before the others.
    #[inline]
    pub fn prepend_bytes(&mut self, bytes: &[u8])
        requires { length self.old + length bytes.now ≤ ROOM }
        ensures text { self.new ≡ bytes.now ++ self.old }
        ensures length { length self.new ≡ length self.old + length bytes.now }
    {
        let start = self.start - bytes.len();
        self.bytes[start..self.start].copy_from_slice(bytes);
        self.start = start;
    }

    /// Puts the decimal text of a number before the other bytes, with no leading zero; it needs 20
    /// bytes of room.
    #[inline]
    pub fn prepend_natural(&mut self, number: u64)
        requires { length self.old + 20 ≤ ROOM }
        ensures text { self.new ≡ decimal number ++ self.old }
        ensures length { length self.new ≤ length self.old + 20 }
    {
        self.start = write_digits(number, &mut self.bytes, self.start);
    }

    /// Puts the decimal text of a number below 256 before the other bytes; it needs 3 bytes of room.
    #[inline]
    pub fn prepend_small(&mut self, number: u8)
        requires { length self.old + 3 ≤ ROOM }
        ensures text { self.new ≡ decimal number ++ self.old }
        ensures length { length self.new ≤ length self.old + 3 }
    {
        self.start = write_small(number, &mut self.bytes, self.start);
    }

    /// Puts the decimal text of a number of eight bits before the other bytes, with `-` where it is
    /// negative; it needs 4 bytes of room.
    #[inline]
    pub fn prepend_small_integer(&mut self, number: i8)
        requires { length self.old + 4 ≤ ROOM }
        ensures text { self.new ≡ signed_decimal number ++ self.old }
        ensures length { length self.new ≤ length self.old + 4 }
    {
        self.start = write_small_integer(number, &mut self.bytes, self.start);
    }

    /// Puts the decimal text of a number before the other bytes, with `-` where it is negative; it
    /// needs 21 bytes of room.
    #[inline]
    pub fn prepend_integer(&mut self, number: i64)
        requires { length self.old + 21 ≤ ROOM }
        ensures text { self.new ≡ signed_decimal number ++ self.old }
        ensures length { length self.new ≤ length self.old + 21 }
    {
        self.prepend_natural(number.unsigned_abs());
        if number < 0 {
            self.prepend_bytes(b"-");
        }
    }
}

// Writes the digits of a number so that they end at `end`, and returns where they start. All three are written and the
// leading zeros left out, so that no branch depends on the number.
#[inline]
fn write_small(number: u8, bytes: &mut [u8], end: usize) -> usize
    requires { (3 ≤ end) × (end ≤ length bytes.old) }
    ensures start { result + length (decimal number) ≡ end }
    ensures written { drop result bytes.new ≡ decimal number ++ drop end bytes.old }
    ensures length { length bytes.new ≡ length bytes.old }
{
    bytes[end - 3..end].copy_from_slice(three_digits(number));
    let wide = number as usize;
    // One more digit from 10 on, and one more from 100 on.
    end - 1 - (wide + 246) / 256 - (wide + 156) / 256
}

// Writes the digits of a number behind its sign, so that they end at `end`, and returns where the text starts. The sign
// is always written, and left out if there is none, so that no branch depends on it.
#[inline]
fn write_small_integer(number: i8, bytes: &mut [u8], end: usize) -> usize
    requires { (4 ≤ end) × (end ≤ length bytes.old) }
    ensures start { result + length (signed_decimal number) ≡ end }
    ensures written { drop result bytes.new ≡ signed_decimal number ++ drop end bytes.old }
    ensures length { length bytes.new ≡ length bytes.old }
{
    let digits = write_small(number.unsigned_abs(), bytes, end);
    bytes[digits - 1] = b'-';
    if number < 0 { digits - 1 } else { digits }
}
