//! Texts that are written part by part, so that none is kept.

ghost use Rattle.std.specs.Prelude.{◌≡◌, false};
ghost use Rattle.line_io.specs.Writes.{Writes};
ghost use Rattle.lens_texts.specs.Parts.{joined};

use le_rec::Sink;
use line_io::IoFault;

/// A text in parts, each of which can be written by itself.
pub trait TextParts {
    ghost use Rattle.std.specs.Prelude.{◌≡◌, ◌<◌, ℕ, List, [], false, length, slice_index_or};
    ghost use Rattle.line_io.specs.Writes.{Writes};

    /// The parts.
    ghost parts: { Self → List (List ℕ) };

    /// How many there are.
    fn count(&self) -> usize
        ensures { result ≡ length (parts self.now) };

    /// Writes the part of a number, from 0.
    fn write<W: Sink>(&self, number: usize, out: &mut W) -> Result<(), IoFault>
        requires there { number < length (parts self.now) }
        requires sound { (W.state out.old).failed ≡ false }
        ensures { Writes (W.state out.old) (W.state out.new) (slice_index_or (parts self.now) number []) result };
}

/// Writes all parts, one after another.
pub fn write_parts<P: TextParts, W: Sink>(text: &P, out: &mut W) -> Result<(), IoFault>
    requires { (W.state out.old).failed ≡ false }
    ensures { Writes (W.state out.old) (W.state out.new) (joined (P.parts text.now)) result }
{
    'parts: for number in 0..text.count() {
        text.write(number, out)?;
    }
    Ok(())
}
