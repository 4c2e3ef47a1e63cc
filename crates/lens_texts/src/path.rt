//! The path of a file, as lines and messages show it.

ghost use Rattle.std.specs.Prelude.{◌≡◌, ◌-◌, ◌<◌, ◌≤◌, ◌++◌, drop, false, get_or, length, position, take};
ghost use Rattle.line_io.specs.Writes.{Writes};
ghost use Rattle.lens_texts.specs.ShownPath.{control_text, is_control_at, is_suspect, is_wide_control, shown_path};

use le_rec::{Sink, hex_digit};
use line_io::{IoFault, emit};

/// Writes a path. Each byte of a control character is written as `\x` and two hexadecimal digits: those
/// below 32, 127, and in UTF-8 C2 followed by 80 to 9F (ISO 6429). All else is unchanged.
pub fn write_path<W: Sink>(path: &[u8], out: &mut W) -> Result<(), IoFault>
    requires { (W.state out.old).failed ≡ false }
    ensures { Writes (W.state out.old) (W.state out.new) (shown_path path.now) result }
{
    // Few paths have any.
    if first_suspect(path).is_none() {
        return emit(out, path);
    }
    let mut from = 0;
    'bytes: for at in 0..path.len() {
        if is_control_at(path, at) {
            write_run(path, from, at, out)?;
            from = at + 1;
        }
    }
    emit(out, &path[from..])
}

/// Writes a path as `write_path` does, and a text behind it.
pub fn write_after_path<W: Sink>(path: &[u8], text: &[u8], out: &mut W) -> Result<(), IoFault>
    requires { (W.state out.old).failed ≡ false }
    ensures { Writes (W.state out.old) (W.state out.new) (shown_path path.now ++ text.now) result }
{
    write_path(path, out)?;
    emit(out, text)
}

// The index of the first byte that is a control character, or with which one may begin.
fn first_suspect(path: &[u8]) -> Option<usize>
    ensures { result ≡ position is_suspect path.now }
{
    path.iter().position(|byte| is_suspect(*byte))
}

fn is_suspect(byte: u8) -> bool
    ensures { result ≡ is_suspect byte }
{
    byte < 32 || byte == 127 || byte == 0xC2
}

/// Whether the byte at an index is a control character, or part of one.
pub fn is_control_at(path: &[u8], at: usize) -> bool
    requires { at < length path.now }
    ensures { result ≡ is_control_at path.now at }
{
    let byte = path[at];
    let behind = path.get(at + 1).copied().unwrap_or(0);
    let before = if at == 0 { 0 } else { path[at - 1] };
    byte < 32 || byte == 127 || is_wide_control(byte, behind) || is_wide_control(before, byte)
}

// Whether two bytes are an eight-bit control character in UTF-8.
fn is_wide_control(first: u8, second: u8) -> bool
    ensures { result ≡ is_wide_control first second }
{
    first == 0xC2 && 0x80 <= second && second <= 0x9F
}

// Writes the bytes from an index up to a control character, and that one.
fn write_run<W: Sink>(path: &[u8], from: usize, at: usize, out: &mut W) -> Result<(), IoFault>
    requires sound { (W.state out.old).failed ≡ false }
    requires within { at < length path.now }
    requires ordered { from ≤ at }
    ensures { Writes (W.state out.old) (W.state out.new)
        (take (at - from) (drop from path.now) ++ control_text (get_or path.now at 0)) result }
{
    emit(out, &path[from..at])?;
    emit(out, &control_text(path[at]))
}

/// How a byte of a control character is shown: `\x` and two hexadecimal digits.
pub fn control_text(byte: u8) -> [u8; 4]
    ensures { result ≡ control_text byte }
{
    [b'\\', b'x', hex_digit(byte / 16), hex_digit(byte % 16)]
}
