//! Numbers in lines of text, each with the most bytes that it takes.

ghost use Rattle.std.specs.Prelude.{◌≡◌, ◌+◌, ◌<◌, ◌≤◌, ◌^◌, ◌++◌, length};
ghost use Rattle.std.specs.Fmt.{decimal, signed_decimal};
ghost use Rattle.line_io.specs.declared.text_line.TheConstants.{ROOM};
ghost use Rattle.map_level.specs.Reading.{number_of};

use line_io::TextLine;
use map_level::{Reading, number};

/// Puts a word before the line.
pub fn prepend_word(line: &mut TextLine, word: &i16)
    requires { length line.old + 21 ≤ ROOM }
    ensures text { line.new ≡ signed_decimal word.now ++ line.old }
    ensures length { length line.new ≤ length line.old + 6 }
{
    line.prepend_integer(i64::from(*word));
}

/// Puts a word as an index under a reading before the line.
pub fn prepend_index(line: &mut TextLine, reading: Reading, word: &i16)
    requires { length line.old + 21 ≤ ROOM }
    ensures text { line.new ≡ signed_decimal (number_of reading word.now) ++ line.old }
    ensures length { length line.new ≤ length line.old + 6 }
{
    line.prepend_integer(i64::from(number(*word, reading)));
}

/// Puts a number of records or bytes, which is below 2^32, before the line.
pub fn prepend_count(line: &mut TextLine, count: usize)
    requires few { count < 2 ^ 32 }
    requires room { length line.old + 20 ≤ ROOM }
    ensures text { line.new ≡ decimal count ++ line.old }
    ensures length { length line.new ≤ length line.old + 10 }
{
    line.prepend_natural(count as u64);
}

/// Puts a number of 16 bits before the line.
pub fn prepend_short(line: &mut TextLine, number: u16)
    requires { length line.old + 20 ≤ ROOM }
    ensures text { line.new ≡ decimal number ++ line.old }
    ensures length { length line.new ≤ length line.old + 5 }
{
    line.prepend_natural(u64::from(number));
}
