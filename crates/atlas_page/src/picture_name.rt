//! The name of a level's picture.

ghost use Rattle.std.specs.Prelude.{◌≡◌, [], false};
ghost use Rattle.line_io.specs.Writes.{Writes};
ghost use Rattle.atlas_page.specs.PictureName.{picture_name};

use le_rec::Sink;
use line_io::{IoFault, TextLine, emit};

/// Puts the name of a level's picture before the line: the number of its file, from 1, and that of its entry.
pub fn prepend_picture_name(line: &mut TextLine, file: u64, entry: u64)
    requires { line.old ≡ [] }
    ensures { line.new ≡ picture_name file entry }
{
    line.prepend_bytes(b".svg");
    line.prepend_natural(entry);
    line.prepend_bytes(b"-");
    line.prepend_natural(file);
}

/// Writes that name.
pub fn write_picture_name<W: Sink>(file: u64, entry: u64, out: &mut W) -> Result<(), IoFault>
    requires { (W.state out.old).failed ≡ false }
    ensures { Writes (W.state out.old) (W.state out.new) (picture_name file entry) result }
{
    let mut line = TextLine::new();
    prepend_picture_name(&mut line, file, entry);
    emit(out, line.as_bytes())
}
