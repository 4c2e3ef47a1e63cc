//! Text within XML.

ghost use Rattle.std.specs.Prelude.{◌≡◌, ◌<◌, false, length, slice_index};
ghost use Rattle.line_io.specs.Writes.{Writes};
ghost use Rattle.lens_texts.specs.Escape.{escaped, escaped_byte};

use crate::parts::{TextParts, write_parts};
use le_rec::Sink;
use line_io::{IoFault, emit};

// Bytes that are to be written without markup.
#[derive(Drop)]
struct Escaped<'a> {
    bytes: &'a [u8],
}

impl TextParts for Escaped<'_> {
    ghost use Rattle.std.specs.Prelude.{map};
    ghost use Rattle.lens_texts.specs.Escape.{escaped_byte};

    ghost parts = { λ text. map escaped_byte text.bytes.now };

    fn count(&self) -> usize {
        self.bytes.len()
    }

    fn write<W: Sink>(&self, number: usize, out: &mut W) -> Result<(), IoFault> {
        write_byte(self.bytes, number, out)
    }
}

/// Writes bytes as text: `&`, `<`, `>` and `"` stand as their entities.
pub fn write_escaped<W: Sink>(bytes: &[u8], out: &mut W) -> Result<(), IoFault>
    requires { (W.state out.old).failed ≡ false }
    ensures { Writes (W.state out.old) (W.state out.new) (escaped bytes.now) result }
{
    write_parts(&Escaped { bytes }, out)
}

// Writes one of the bytes.
fn write_byte<W: Sink>(bytes: &[u8], at: usize, out: &mut W) -> Result<(), IoFault>
    requires there { at < length bytes.now }
    requires sound { (W.state out.old).failed ≡ false }
    ensures { Writes (W.state out.old) (W.state out.new) (escaped_byte (slice_index bytes.now at)) result }
{
    match bytes[at] {
        b'&' => emit(out, b"&amp;"),
        b'<' => emit(out, b"&lt;"),
        b'>' => emit(out, b"&gt;"),
        b'"' => emit(out, b"&quot;"),
        byte => emit(out, &[byte]),
    }
}
