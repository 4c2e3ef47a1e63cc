//! Signed numbers in lines of text.

ghost use Rattle.std.specs.Prelude.{◌≡◌, ◌+◌, ◌≤◌, ◌++◌, length};
ghost use Rattle.std.specs.Fmt.{signed_decimal};

use line_io::TextLine;

/// Puts a word before the line; it needs 21 bytes of room.
pub fn prepend_word(line: &mut TextLine, word: &i16)
    requires { length line.old + 21 ≤ 144 }
    ensures text { line.new ≡ signed_decimal word.now ++ line.old }
    ensures length { length line.new ≤ length line.old + 21 }
{
    line.prepend_integer(i64::from(*word));
}

/// Puts a number before the line; it needs 21 bytes of room.
pub fn prepend_number(line: &mut TextLine, number: &i32)
    requires { length line.old + 21 ≤ 144 }
    ensures text { line.new ≡ signed_decimal number.now ++ line.old }
    ensures length { length line.new ≤ length line.old + 21 }
{
    line.prepend_integer(i64::from(*number));
}
