//! Small texts of the page.

ghost use Rattle.std.specs.Prelude.{◌≡◌, ◌<◌, false, length};
ghost use Rattle.std.specs.Fmt.{decimal};
ghost use Rattle.line_io.specs.Writes.{Writes};
ghost use Rattle.le_rec.specs.Name.{shown_name};
ghost use Rattle.lens_texts.specs.Escape.{escaped};
ghost use Rattle.atlas_page.specs.Text.{path_byte, path_text};

use le_rec::{Name8, Sink};
use lens_texts::escape::write_escaped;
use lens_texts::parts::{TextParts, write_parts};
use lens_texts::{control_text, is_control_at};
use line_io::{IoFault, TextLine, emit};

/// Writes a number.
pub fn write_number<W: Sink>(number: u64, out: &mut W) -> Result<(), IoFault>
    requires { (W.state out.old).failed ≡ false }
    ensures { Writes (W.state out.old) (W.state out.new) (decimal number) result }
{
    let mut line = TextLine::new();
    line.prepend_natural(number);
    emit(out, line.as_bytes())
}

/// Writes a name as it is shown, without markup.
pub fn write_name<W: Sink>(name: &Name8, out: &mut W) -> Result<(), IoFault>
    requires { (W.state out.old).failed ≡ false }
    ensures { Writes (W.state out.old) (W.state out.new) (escaped (shown_name name.now)) result }
{
    let mut text = [0; 32];
    let len = name.shown(&mut text);
    write_escaped(&text[..len], out)
}

// A path in its bytes.
#[derive(Drop)]
struct PathBytes<'p> {
    path: &'p [u8],
}

impl TextParts for PathBytes<'_> {
    ghost use Rattle.atlas_page.specs.Text.{path_bytes};

    ghost parts = { λ bytes. path_bytes bytes.path.now };

    fn count(&self) -> usize {
        self.path.len()
    }

    fn write<W: Sink>(&self, number: usize, out: &mut W) -> Result<(), IoFault> {
        write_path_byte(self.path, number, out)
    }
}

/// Writes a path as lines show it, without markup.
pub fn write_page_path<W: Sink>(path: &[u8], out: &mut W) -> Result<(), IoFault>
    requires { (W.state out.old).failed ≡ false }
    ensures { Writes (W.state out.old) (W.state out.new) (path_text path.now) result }
{
    write_parts(&PathBytes { path }, out)
}

// Writes one byte of a path.
fn write_path_byte<W: Sink>(path: &[u8], at: usize, out: &mut W) -> Result<(), IoFault>
    requires there { at < length path.now }
    requires sound { (W.state out.old).failed ≡ false }
    ensures { Writes (W.state out.old) (W.state out.new) (path_byte path.now at) result }
{
    let byte = path[at];
    if is_control_at(path, at) {
        write_escaped(&control_text(byte), out)
    } else {
        write_escaped(&[byte], out)
    }
}
