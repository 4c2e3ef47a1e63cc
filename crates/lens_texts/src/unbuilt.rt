//! That a level's nodes weren't built: which of a node builder's lumps are empty.

ghost use Rattle.std.specs.Prelude.{◌≡◌, ◌+◌, ◌≤◌, [], ◌++◌, false, length};
ghost use Rattle.line_io.specs.Writes.{Writes};
ghost use Rattle.lens_texts.specs.Head.{head_of};
ghost use Rattle.lens_texts.specs.Unbuilt.{empty_lumps, empty_member, empty_names, empty_words, is_unbuilt, quoted_names, unbuilt_line};
ghost use Rattle.lens_texts.specs.Unbuilt.{unbuilt_message, unbuilt_object, unbuilt_text, unreached_text};

use crate::digits::prepend_count;
use crate::form::Form;
use crate::lines::{Heading, write_line};
use crate::remark_object::write_front;
use le_rec::Sink;
use line_io::{IoFault, TextLine, emit};
use map_level::Level;

/// Which lumps of a node builder a level with linedefs lacks, as they are empty.
#[derive(Clone, Copy, Debug, PartialEq, Eq)]
pub struct EmptyLumps {
    pub segs: bool,
    pub ssectors: bool,
    /// A level of one ssector has no nodes, and lacks none.
    pub nodes: bool,
}

impl EmptyLumps {
    /// Those of a level. None is reported where there is no linedef.
    pub fn of(level: &Level<'_>) -> EmptyLumps
        ensures { result ≡ empty_lumps level.now }
    {
        let drawn = level.linedefs().len() > 0;
        EmptyLumps {
            segs: drawn & (level.segs().len() == 0),
            ssectors: drawn & (level.ssectors().len() == 0),
            nodes: drawn & (level.nodes().len() == 0) & (level.ssectors().len() != 1),
        }
    }

    /// Whether there is any.
    pub fn is_any(self) -> bool
        ensures { result ≡ is_unbuilt self }
    {
        self.segs | self.ssectors | self.nodes
    }

    // That they are empty, in words.
    fn words(self) -> &'static [u8]
        ensures words { result.now ≡ empty_words (empty_names self) }
        ensures short { length result.now ≤ 34 }
    {
        match (self.segs, self.ssectors, self.nodes) {
            (true, true, true) => b"SEGS, SSECTORS and NODES are empty",
            (true, true, false) => b"SEGS and SSECTORS are empty",
            (true, false, true) => b"SEGS and NODES are empty",
            (true, false, false) => b"SEGS is empty",
            (false, true, true) => b"SSECTORS and NODES are empty",
            (false, true, false) => b"SSECTORS is empty",
            (false, false, true) => b"NODES is empty",
            (false, false, false) => b"",
        }
    }

    // Their names, quoted, with commas between.
    fn quoted(self) -> &'static [u8]
        ensures names { result.now ≡ quoted_names (empty_names self) }
        ensures short { length result.now ≤ 25 }
    {
        match (self.segs, self.ssectors, self.nodes) {
            (true, true, true) => b"\"SEGS\",\"SSECTORS\",\"NODES\"",
            (true, true, false) => b"\"SEGS\",\"SSECTORS\"",
            (true, false, true) => b"\"SEGS\",\"NODES\"",
            (true, false, false) => b"\"SEGS\"",
            (false, true, true) => b"\"SSECTORS\",\"NODES\"",
            (false, true, false) => b"\"SSECTORS\"",
            (false, false, true) => b"\"NODES\"",
            (false, false, false) => b"",
        }
    }
}

/// Writes that the level's nodes weren't built; nothing if none of their lumps is empty.
pub fn write_unbuilt<W: Sink>(
    heading: &Heading<'_>,
    level: &Level<'_>,
    out: &mut W,
) -> Result<(), IoFault>
    requires { (W.state out.old).failed ≡ false }
    ensures { Writes (W.state out.old) (W.state out.new) (unbuilt_text (head_of heading.now) level.now) result }
{
    let empty = EmptyLumps::of(level);
    if !empty.is_any() {
        return Ok(());
    }
    match heading.form {
        Form::Lines => write_unbuilt_line(heading, level, out),
        Form::Objects => write_unbuilt_object(heading, level, out),
    }
}

// Writes that in a line.
fn write_unbuilt_line<W: Sink>(
    heading: &Heading<'_>,
    level: &Level<'_>,
    out: &mut W,
) -> Result<(), IoFault>
    requires { (W.state out.old).failed ≡ false }
    ensures { Writes (W.state out.old) (W.state out.new) (unbuilt_line heading.now.path.now heading.now.label level.now) result }
{
    let mut line = TextLine::new();
    line.prepend_bytes(b"\n");
    prepend_unbuilt(&mut line, level);
    write_line(heading, line.as_bytes(), out)
}

// Writes that as an object.
fn write_unbuilt_object<W: Sink>(
    heading: &Heading<'_>,
    level: &Level<'_>,
    out: &mut W,
) -> Result<(), IoFault>
    requires { (W.state out.old).failed ≡ false }
    ensures { Writes (W.state out.old) (W.state out.new) (unbuilt_object heading.now.path.now heading.now.label level.now) result }
{
    let mut line = TextLine::new();
    line.prepend_bytes(b"\"}\n");
    prepend_unbuilt(&mut line, level);
    prepend_empty(&mut line, level);
    write_front(heading, out)?;
    emit(out, line.as_bytes())
}

// `,"empty":[NAMES],"message":"`
fn prepend_empty(line: &mut TextLine, level: &Level<'_>)
    requires { length line.old ≤ 93 }
    ensures { line.new ≡ empty_member level.now line.old }
{
    line.prepend_bytes(b"],\"message\":\"");
    line.prepend_bytes(EmptyLumps::of(level).quoted());
    line.prepend_bytes(b",\"empty\":[");
}

// What a mapper reads of that: which lumps are empty, what that means, and what to do.
fn prepend_unbuilt(line: &mut TextLine, level: &Level<'_>)
    requires { length line.old ≤ 4 }
    ensures text { line.new ≡ unbuilt_message level.now line.old }
    ensures length { length line.new ≤ length line.old + 89 }
{
    line.prepend_bytes(b"; build the nodes");
    prepend_unreached(line, level);
    line.prepend_bytes(EmptyLumps::of(level).words());
}

// `: N ssectors can't be reached`, where NODES alone is empty.
fn prepend_unreached(line: &mut TextLine, level: &Level<'_>)
    requires { length line.old ≤ 21 }
    ensures text { line.new ≡ unreached_text level.now line.old }
    ensures length { length line.new ≤ length line.old + 38 }
{
    let count = level.ssectors().len();
    if (level.nodes().len() == 0) & (count > 1) {
        line.prepend_bytes(b" ssectors can't be reached");
        prepend_count(line, count - 1);
        line.prepend_bytes(b": ");
    }
}
