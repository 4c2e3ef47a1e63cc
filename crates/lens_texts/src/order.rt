//! That a level has its ten lumps in another order.

ghost use Rattle.std.specs.Prelude.{◌≡◌, ◌+◌, ◌≤◌, [], ◌++◌, false, length, slice_index_or, IfSome};
ghost use Rattle.le_rec.specs.Name.{shown_name};
ghost use Rattle.line_io.specs.Writes.{Writes};
ghost use Rattle.line_io.specs.declared.text_line.TheConstants.{ROOM};
ghost use Rattle.lens_texts.specs.Head.{head_of};
ghost use Rattle.lens_texts.specs.LevelObject.{usual_name};
ghost use Rattle.lens_texts.specs.Order.{order_line, order_member, order_object, order_part, order_text, order_words};
ghost use Rattle.lens_texts.specs.Unread.{NamesLump};

use crate::form::Form;
use crate::label::prepend_name;
use crate::lines::{Heading, write_line};
use crate::remark_object::write_front;
use crate::unread::Unread;
use le_rec::Sink;
use line_io::{IoFault, TextLine, emit};
use map_level::usual_name;

/// Writes that a level that lacks a lump in its place has all ten, by the lump that has this place; nothing of another level.
pub fn write_order<W: Sink>(
    heading: &Heading<'_>,
    unread: Unread,
    order: Option<u32>,
    out: &mut W,
) -> Result<(), IoFault>
    requires lump { NamesLump unread }
    requires order { IfSome order (λ j. (1 ≤ j) × (j ≤ 10)) }
    requires sound { (W.state out.old).failed ≡ false }
    ensures { Writes (W.state out.old) (W.state out.new) (order_part (head_of heading.now) unread order) result }
{
    match unread {
        Unread::Incomplete(k) => match order {
            Some(j) => write_exchanged(heading, j as usize, k as usize, out),
            None => Ok(()),
        },
        Unread::Udmf | Unread::Hexen | Unread::Outside(_) | Unread::Extended(..) => Ok(()),
    }
}

// Writes that lump j stands before lump k.
fn write_exchanged<W: Sink>(
    heading: &Heading<'_>,
    j: usize,
    k: usize,
    out: &mut W,
) -> Result<(), IoFault>
    requires first { (1 ≤ j) × (j ≤ 10) }
    requires second { (1 ≤ k) × (k ≤ 10) }
    requires sound { (W.state out.old).failed ≡ false }
    ensures { Writes (W.state out.old) (W.state out.new) (order_text (head_of heading.now) j k) result }
{
    match heading.form {
        Form::Lines => write_order_line(heading, j, k, out),
        Form::Objects => write_order_object(heading, j, k, out),
    }
}

// Writes that in a line.
fn write_order_line<W: Sink>(
    heading: &Heading<'_>,
    j: usize,
    k: usize,
    out: &mut W,
) -> Result<(), IoFault>
    requires first { (1 ≤ j) × (j ≤ 10) }
    requires second { (1 ≤ k) × (k ≤ 10) }
    requires sound { (W.state out.old).failed ≡ false }
    ensures { Writes (W.state out.old) (W.state out.new) (order_line heading.now.path.now heading.now.label j k) result }
{
    let mut line = TextLine::new();
    line.prepend_bytes(b"\n");
    prepend_lump(&mut line, k);
    line.prepend_bytes(b" before ");
    prepend_lump(&mut line, j);
    line.prepend_bytes(b"lumps in another order: ");
    write_line(heading, line.as_bytes(), out)
}

// Writes that as an object.
fn write_order_object<W: Sink>(
    heading: &Heading<'_>,
    j: usize,
    k: usize,
    out: &mut W,
) -> Result<(), IoFault>
    requires first { (1 ≤ j) × (j ≤ 10) }
    requires second { (1 ≤ k) × (k ≤ 10) }
    requires sound { (W.state out.old).failed ≡ false }
    ensures { Writes (W.state out.old) (W.state out.new) (order_object heading.now.path.now heading.now.label j k) result }
{
    let mut line = TextLine::new();
    line.prepend_bytes(b"\"]}\n");
    prepend_lump(&mut line, k);
    line.prepend_bytes(b"\",\"");
    prepend_lump(&mut line, j);
    line.prepend_bytes(b",\"order\":[\"");
    write_front(heading, out)?;
    emit(out, line.as_bytes())
}

// Puts the usual name of a lump before the line.
fn prepend_lump(line: &mut TextLine, k: usize)
    requires lump { (1 ≤ k) × (k ≤ 10) }
    requires room { length line.old + 32 ≤ ROOM }
    ensures text { line.new ≡ shown_name (usual_name k) ++ line.old }
    ensures length { length line.new ≤ length line.old + 32 }
{
    prepend_name(line, usual_name(k));
}
