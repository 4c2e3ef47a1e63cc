//! Strings of JSON (RFC 8259), written part by part.

ghost use Rattle.std.specs.Prelude.{◌≡◌, ◌+◌, ◌<◌, ◌++◌, drop, false, length, position, slice_index, take};
ghost use Rattle.std.specs.Str.Lossy.{utf8_lossy};
ghost use Rattle.line_io.specs.Writes.{Writes};
ghost use Rattle.lens_texts.specs.JsonString.{escape_of, escaped, json_string, needs_escape, replaced};

use le_rec::{Sink, hex_digit};
use line_io::{IoFault, emit};

// U+FFFD in UTF-8.
const REPLACEMENT: [u8; 3] = [0xEF, 0xBF, 0xBD];

/// Writes bytes as a string. U+FFFD stands for each sequence that isn't UTF-8, as in
/// `String::from_utf8_lossy`. Only what needs an escape has one.
pub fn write_string<W: Sink>(bytes: &[u8], out: &mut W) -> Result<(), IoFault>
    requires { (W.state out.old).failed ≡ false }
    ensures { Writes (W.state out.old) (W.state out.new) (json_string bytes.now) result }
{
    emit(out, b"\"")?;
    write_text(bytes, out)?;
    emit(out, b"\"")
}

// Writes what stands between the quotes.
fn write_text<W: Sink>(bytes: &[u8], out: &mut W) -> Result<(), IoFault>
    requires { (W.state out.old).failed ≡ false }
    ensures { Writes (W.state out.old) (W.state out.new) (escaped (utf8_lossy bytes.now)) result }
{
    for chunk in bytes.utf8_chunks() {
        write_chunk(chunk.valid().as_bytes(), chunk.invalid(), out)?;
    }
    Ok(())
}

// Writes text within a string, and then U+FFFD if some bytes after it aren't text.
fn write_chunk<W: Sink>(text: &[u8], invalid: &[u8], out: &mut W) -> Result<(), IoFault>
    requires { (W.state out.old).failed ≡ false }
    ensures { Writes (W.state out.old) (W.state out.new) (escaped text.now ++ replaced invalid.now) result }
{
    write_escaped(text, out)?;
    if invalid.is_empty() {
        return Ok(());
    }
    emit(out, &REPLACEMENT)
}

// Writes text within a string.
fn write_escaped<W: Sink>(text: &[u8], out: &mut W) -> Result<(), IoFault>
    requires { (W.state out.old).failed ≡ false }
    ensures { Writes (W.state out.old) (W.state out.new) (escaped text.now) result }
{
    let mut rest = text;
    'runs: while let Some(at) = first_escape(rest) {
        write_run(rest, at, out)?;
        rest = behind(rest, at);
    }
    emit(out, rest)
}

// The index of the first byte that needs to be escaped.
fn first_escape(text: &[u8]) -> Option<usize>
    ensures { result ≡ position needs_escape text.now }
{
    text.iter().position(|byte| needs_escape(*byte))
}

fn needs_escape(byte: u8) -> bool
    ensures { result ≡ needs_escape byte }
{
    byte < 32 || byte == b'"' || byte == b'\\'
}

// The bytes behind an index.
fn behind(text: &[u8], at: usize) -> &[u8]
    requires { at < length text.now }
    ensures { result.now ≡ drop (at + 1) text.now }
{
    &text[at + 1..]
}

// Writes the bytes before an index, and the byte there, which is the first that needs to be escaped.
fn write_run<W: Sink>(text: &[u8], at: usize, out: &mut W) -> Result<(), IoFault>
    requires sound { (W.state out.old).failed ≡ false }
    requires within { at < length text.now }
    ensures { Writes (W.state out.old) (W.state out.new)
        (take at text.now ++ escape_of (slice_index text.now at)) result }
{
    emit(out, &text[..at])?;
    write_escape(text[at], out)
}

// Writes a byte that needs to be escaped.
fn write_escape<W: Sink>(byte: u8, out: &mut W) -> Result<(), IoFault>
    requires { (W.state out.old).failed ≡ false }
    ensures { Writes (W.state out.old) (W.state out.new) (escape_of byte) result }
{
    if byte < 32 {
        let digits = [hex_digit(byte / 16), hex_digit(byte % 16)];
        return emit(out, &[b'\\', b'u', b'0', b'0', digits[0], digits[1]]);
    }
    emit(out, &[b'\\', byte])
}
