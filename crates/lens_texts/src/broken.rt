//! Why nodes are broken, in a line of text.

ghost use Rattle.std.specs.Prelude.{◌≡◌, ◌+◌, ◌≤◌, ◌++◌, length};
ghost use Rattle.line_io.specs.declared.text_line.TheConstants.{ROOM};
ghost use Rattle.node_lumps.specs.Format.{lump_name};
ghost use Rattle.node_lumps.specs.Parts.{part_name};
ghost use Rattle.node_lumps.specs.Words.{broken_text};
ghost use Rattle.node_lumps.specs.declared.broken.Broken.TheVariants as broken;

use line_io::TextLine;
use node_lumps::{Broken, NodeLump, Part};

/// Puts why nodes are broken before the line.
pub(crate) fn prepend_broken(line: &mut TextLine, why: Broken)
    requires { length line.old + 75 ≤ ROOM }
    ensures text { line.new ≡ broken_text why ++ line.old }
    ensures length { length line.new ≤ length line.old + 75 }
{
    match why {
        Broken::EndsWithin(lump, part) => prepend_cut(line, lump, part),
        Broken::Segs(counted, there) => prepend_segs(line, counted, there),
        Broken::Vertexes(made, there) => prepend_vertexes(line, made, there),
    }
}

// A lump ends within a part.
fn prepend_cut(line: &mut TextLine, lump: NodeLump, part: Part)
    requires { length line.old + 75 ≤ ROOM }
    ensures text { line.new ≡ broken_text (broken.EndsWithin lump part) ++ line.old }
    ensures length { length line.new ≤ length line.old + 75 }
{
    line.prepend_bytes(part_text(part));
    line.prepend_bytes(b" ends within its ");
    line.prepend_bytes(lump_text(lump));
}

#[tactic(auto, using(crate::proofs::BrokenLemmas::lump_short))]
fn lump_text(lump: NodeLump) -> &'static [u8]
    ensures text { result.now ≡ lump_name lump }
    ensures short { length result.now ≤ 8 }
{
    lump.name().as_bytes()
}

#[tactic(auto, using(crate::proofs::BrokenLemmas::part_short))]
fn part_text(part: Part) -> &'static [u8]
    ensures text { result.now ≡ part_name part }
    ensures short { length result.now ≤ 8 }
{
    part.name().as_bytes()
}

// The ssectors have other segs than there are.
fn prepend_segs(line: &mut TextLine, counted: u64, there: u64)
    requires { length line.old + 75 ≤ ROOM }
    ensures text { line.new ≡ broken_text (broken.Segs counted there) ++ line.old }
    ensures length { length line.new ≤ length line.old + 75 }
{
    line.prepend_bytes(b" are there");
    line.prepend_natural(there);
    line.prepend_bytes(b" segs, ");
    line.prepend_natural(counted);
    line.prepend_bytes(b"its ssectors have ");
}

// The nodes go with more vertexes than there are.
fn prepend_vertexes(line: &mut TextLine, made: u64, there: u64)
    requires { length line.old + 75 ≤ ROOM }
    ensures text { line.new ≡ broken_text (broken.Vertexes made there) ++ line.old }
    ensures length { length line.new ≤ length line.old + 75 }
{
    line.prepend_natural(there);
    line.prepend_bytes(b" vertexes, VERTEXES has ");
    line.prepend_natural(made);
    line.prepend_bytes(b"made for ");
}
