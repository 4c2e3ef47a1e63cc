//! Names in lines of text.

ghost use Rattle.std.specs.Prelude.{◌≡◌, ◌+◌, ◌≤◌, ◌++◌, length};
ghost use Rattle.le_rec.specs.Name.{shown_name};
ghost use Rattle.line_io.specs.declared.text_line.TheConstants.{ROOM};

use le_rec::Name8;
use line_io::TextLine;

/// Puts a name as it is shown before the line.
pub fn prepend_name(line: &mut TextLine, name: &Name8)
    requires { length line.old + 32 ≤ ROOM }
    ensures text { line.new ≡ shown_name name.now ++ line.old }
    ensures length { length line.new ≤ length line.old + 32 }
{
    let mut text = [0; 32];
    let len = name.shown(&mut text);
    line.prepend_bytes(&text[..len]);
}
