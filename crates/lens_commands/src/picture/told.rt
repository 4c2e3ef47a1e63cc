//! Messages about a picture on standard error.

ghost use Rattle.std.specs.Prelude.{◌≡◌, ◌<◌, ◌++◌, codes, false, length, map};
ghost use Rattle.lens_commands.specs.PictureTold.{TellsRefused, name_head, named_line};
ghost use Rattle.line_io.specs.Writes.{Writes};
ghost use Rattle.lens_texts.specs.FormatLine.{format_text};
ghost use Rattle.lens_texts.specs.Unread.{NamesLump};

use le_rec::Sink;
use lens_engines::FileRefusal;
use lens_reports::write_refusal;
use lens_texts::{Unread, write_format_alone, write_path};
use line_io::{IoFault, emit};

/// Reports that the file of an index is refused, and why. If standard error fails, the message is lost.
pub fn tell_refused<E: Sink>(paths: &[&str], index: usize, refusal: FileRefusal, errors: &mut E)
    requires there { index < length paths.now }
    requires sound { (E.state errors.old).failed ≡ false }
    ensures { TellsRefused (map (λ path. path.now) paths.now) index refusal (E.state errors.old) (E.state errors.new) }
{
    let _ = write_refusal(paths[index].as_bytes(), refusal, errors);
}

/// Writes a message about a level, by the name that was asked for: `wadlens: NAME: TEXT`.
pub fn write_named<E: Sink>(name: &[u8], text: &[u8], errors: &mut E) -> Result<(), IoFault>
    requires { (E.state errors.old).failed ≡ false }
    ensures { Writes (E.state errors.old) (E.state errors.new) (named_line name.now text.now) result }
{
    write_head(name, errors)?;
    emit(errors, text)
}

/// Writes why a level isn't drawn, by the name that was asked for.
pub fn write_format<E: Sink>(name: &[u8], unread: Unread, errors: &mut E) -> Result<(), IoFault>
    requires lump { NamesLump unread }
    requires sound { (E.state errors.old).failed ≡ false }
    ensures { Writes (E.state errors.old) (E.state errors.new) (named_line name.now (format_text unread)) result }
{
    write_head(name, errors)?;
    write_format_alone(unread, errors)
}

// `wadlens: NAME: `
fn write_head<E: Sink>(name: &[u8], errors: &mut E) -> Result<(), IoFault>
    requires { (E.state errors.old).failed ≡ false }
    ensures { Writes (E.state errors.old) (E.state errors.new) (name_head name.now) result }
{
    emit(errors, b"wadlens: ")?;
    write_path(name, errors)?;
    emit(errors, b": ")
}
