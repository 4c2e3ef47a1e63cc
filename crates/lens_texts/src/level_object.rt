//! What the objects of a level have in common: the file, the label and the format.

ghost use Rattle.std.specs.Prelude.{◌≡◌, ◌+◌, ◌≤◌, ◌++◌, codes, false, length};
ghost use Rattle.line_io.specs.Writes.{Writes};
ghost use Rattle.line_io.specs.declared.text_line.TheConstants.{ROOM};
ghost use Rattle.lens_texts.specs.JsonString.{json_string};
ghost use Rattle.lens_texts.specs.LevelObject.{broken_member, file_member, format_member, format_name, label_members, level_members};
ghost use Rattle.lens_texts.specs.LevelObject.{name_string, number_member, other_members, telling_members, usual_name};
ghost use Rattle.lens_texts.specs.Unread.{NamesLump};
ghost use Rattle.node_lumps.specs.Words.{broken_text};

use crate::broken::prepend_broken;
use crate::json_string::write_string;
use crate::unread::Unread;
use le_rec::{Name8, Sink};
use level_starts::Format;
use line_io::{IoFault, TextLine, emit};
use map_level::usual_name;
use node_lumps::Broken;

/// `{"file":<path>`
pub fn write_file<W: Sink>(path: &[u8], out: &mut W) -> Result<(), IoFault>
    requires { (W.state out.old).failed ≡ false }
    ensures { Writes (W.state out.old) (W.state out.new) (file_member path.now) result }
{
    emit(out, b"{\"file\":")?;
    write_string(path, out)
}

/// Writes a name as it is shown, as a string.
pub fn write_name<W: Sink>(name: &Name8, out: &mut W) -> Result<(), IoFault>
    requires { (W.state out.old).failed ≡ false }
    ensures { Writes (W.state out.old) (W.state out.new) (name_string name.now) result }
{
    let mut text = [0; 32];
    let len = name.shown(&mut text);
    write_string(&text[..len], out)
}

/// Writes what the object of a level begins with.
pub fn write_level<W: Sink>(
    path: &[u8],
    name: &Name8,
    g: usize,
    format: Format,
    out: &mut W,
) -> Result<(), IoFault>
    requires { (W.state out.old).failed ≡ false }
    ensures { Writes (W.state out.old) (W.state out.new) (level_members path.now name.now g format) result }
{
    write_file(path, out)?;
    write_label(name, g as u64, out)?;
    write_format(format, out)
}

/// `,"level":<name>,"entry":<g>`
pub fn write_label<W: Sink>(name: &Name8, g: u64, out: &mut W) -> Result<(), IoFault>
    requires { (W.state out.old).failed ≡ false }
    ensures { Writes (W.state out.old) (W.state out.new) (label_members name.now g) result }
{
    emit(out, b",\"level\":")?;
    write_name(name, out)?;
    write_number(b"entry", g, out)
}

/// `,"<name>":<number>`, by a name of at most 16 bytes.
pub fn write_number<W: Sink>(name: &[u8], number: u64, out: &mut W) -> Result<(), IoFault>
    requires short { length name.now ≤ 16 }
    requires sound { (W.state out.old).failed ≡ false }
    ensures { Writes (W.state out.old) (W.state out.new) (number_member name.now number) result }
{
    let mut line = TextLine::new();
    prepend_number(&mut line, name, number);
    emit(out, line.as_bytes())
}

/// Puts `,"<name>":<number>` before the line.
pub fn prepend_number(line: &mut TextLine, name: &[u8], number: u64)
    requires { length line.old + length name.now + 24 ≤ ROOM }
    ensures text { line.new ≡ number_member name.now number ++ line.old }
    ensures length { length line.new ≤ length line.old + length name.now + 24 }
{
    line.prepend_natural(number);
    line.prepend_bytes(b"\":");
    line.prepend_bytes(name);
    line.prepend_bytes(b",\"");
}

// `,"format":"<format>"`
fn write_format<W: Sink>(format: Format, out: &mut W) -> Result<(), IoFault>
    requires { (W.state out.old).failed ≡ false }
    ensures { Writes (W.state out.old) (W.state out.new) (format_member format) result }
{
    let mut line = TextLine::new();
    line.prepend_bytes(b"\"");
    line.prepend_bytes(format_name(format));
    line.prepend_bytes(b",\"format\":\"");
    emit(out, line.as_bytes())
}

/// The name of a format.
pub fn format_name(format: Format) -> &'static [u8]
    ensures name { result.now ≡ format_name format }
    ensures short { length result.now ≤ 10 }
{
    match format {
        Format::Udmf => b"udmf",
        Format::Incomplete(_) => b"incomplete",
        Format::Hexen => b"hexen",
        Format::Outside(_) => b"outside",
        Format::Extended(_) => b"extended",
        Format::Doom => b"doom",
    }
}

/// Writes what the object of a level that isn't judged ends with.
pub fn write_other<W: Sink>(unread: Unread, out: &mut W) -> Result<(), IoFault>
    requires lump { NamesLump unread }
    requires sound { (W.state out.old).failed ≡ false }
    ensures { Writes (W.state out.old) (W.state out.new) (other_members unread) result }
{
    write_telling(unread, out)?;
    emit(out, b"}\n")
}

// Writes what decides its format.
fn write_telling<W: Sink>(unread: Unread, out: &mut W) -> Result<(), IoFault>
    requires lump { NamesLump unread }
    requires sound { (W.state out.old).failed ≡ false }
    ensures { Writes (W.state out.old) (W.state out.new) (telling_members unread) result }
{
    match unread {
        Unread::Incomplete(k) | Unread::Outside(k) => write_lump(k, out),
        Unread::Extended(tag, why) => write_nodes(&tag, why, out),
        Unread::Udmf | Unread::Hexen => Ok(()),
    }
}

// `,"lump":<name>`
fn write_lump<W: Sink>(k: u32, out: &mut W) -> Result<(), IoFault>
    requires lump { (1 ≤ k) × (k ≤ 10) }
    requires sound { (W.state out.old).failed ≡ false }
    ensures { Writes (W.state out.old) (W.state out.new) (codes ",\"lump\":" ++ name_string (usual_name k)) result }
{
    emit(out, b",\"lump\":")?;
    write_name(&usual_name(k as usize), out)
}

// `,"tag":<tag>`, and why the nodes are broken
fn write_nodes<W: Sink>(tag: &[u8; 4], why: Option<Broken>, out: &mut W) -> Result<(), IoFault>
    requires { (W.state out.old).failed ≡ false }
    ensures { Writes (W.state out.old) (W.state out.new)
        ((codes ",\"tag\":" ++ json_string tag.now) ++ broken_member why) result }
{
    write_tag(tag, out)?;
    write_why(why, out)
}

// `,"broken":<words>`, where the nodes are broken
fn write_why<W: Sink>(why: Option<Broken>, out: &mut W) -> Result<(), IoFault>
    requires { (W.state out.old).failed ≡ false }
    ensures { Writes (W.state out.old) (W.state out.new) (broken_member why) result }
{
    match why {
        Some(why) => write_broken(why, out),
        None => Ok(()),
    }
}

// `,"broken":<words>`
fn write_broken<W: Sink>(why: Broken, out: &mut W) -> Result<(), IoFault>
    requires { (W.state out.old).failed ≡ false }
    ensures { Writes (W.state out.old) (W.state out.new) (codes ",\"broken\":" ++ json_string (broken_text why)) result }
{
    let mut words = TextLine::new();
    prepend_broken(&mut words, why);
    emit(out, b",\"broken\":")?;
    write_string(words.as_bytes(), out)
}

// `,"tag":<tag>`
fn write_tag<W: Sink>(tag: &[u8; 4], out: &mut W) -> Result<(), IoFault>
    requires { (W.state out.old).failed ≡ false }
    ensures { Writes (W.state out.old) (W.state out.new) (codes ",\"tag\":" ++ json_string tag.now) result }
{
    emit(out, b",\"tag\":")?;
    write_string(tag, out)
}
