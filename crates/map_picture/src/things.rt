//! The things of a picture.

ghost use Rattle.std.specs.Prelude.{◌≡◌, ◌<◌, ◌^◌, [], false};
ghost use Rattle.line_io.specs.Writes.{Writes};
ghost use Rattle.map_picture.specs.Things.{place_text, thing_line, thing_text, things_lines, turn_of, turn_text};

use crate::class::{class_name, class_of};
use crate::word::{prepend_number, prepend_word};
use le_rec::{Sink, Thing};
use lens_texts::parts::{TextParts, write_parts};
use line_io::{IoFault, TextLine, emit};
use map_level::Level;

// An eighth of a turn, in degrees.
const EIGHTH: i16 = 45;

#[derive(Drop)]
struct ThingLines<'l, 'a> {
    level: &'l Level<'a>,
}

impl TextParts for ThingLines<'_, '_> {
    ghost use Rattle.map_level.specs.Links.{things_of};
    ghost use Rattle.lens_texts.specs.Parts.{numbered};
    ghost use Rattle.map_picture.specs.Things.{thing_line};

    ghost parts = { λ lines. numbered thing_line 0 (things_of lines.level.now) };

    fn count(&self) -> usize {
        self.level.things().len()
    }

    fn write<W: Sink>(&self, number: usize, out: &mut W) -> Result<(), IoFault> {
        let thing = self.level.things().at(number);
        write_thing(number as u64, &thing, out)
    }
}

/// Writes the lines of a level's things.
pub fn write_things<W: Sink>(level: &Level<'_>, out: &mut W) -> Result<(), IoFault>
    requires { (W.state out.old).failed ≡ false }
    ensures { Writes (W.state out.old) (W.state out.new) (things_lines level.now) result }
{
    write_parts(&ThingLines { level }, out)
}

// The line of a thing.
#[derive(Drop)]
struct ThingLine<'t> {
    number: u64,
    thing: &'t Thing,
}

impl TextParts for ThingLine<'_> {
    ghost use Rattle.std.specs.Prelude.{[], ◌∷◌};
    ghost use Rattle.map_picture.specs.Things.{place_text, thing_text, turn_text};

    ghost parts = { λ line. place_text line.thing.now ∷ turn_text line.thing.now ∷ thing_text line.number line.thing.now ∷ [] };

    fn count(&self) -> usize {
        3
    }

    fn write<W: Sink>(&self, number: usize, out: &mut W) -> Result<(), IoFault> {
        match number {
            0 => write_place(self.thing, out),
            1 => write_turn(self.thing, out),
            _ => write_text(self.number, self.thing, out),
        }
    }
}

// Writes the line of a thing.
fn write_thing<W: Sink>(number: u64, thing: &Thing, out: &mut W) -> Result<(), IoFault>
    requires { (W.state out.old).failed ≡ false }
    ensures { Writes (W.state out.old) (W.state out.new) (thing_line number thing.now) result }
{
    write_parts(&ThingLine { number, thing }, out)
}

fn write_place<W: Sink>(thing: &Thing, out: &mut W) -> Result<(), IoFault>
    requires { (W.state out.old).failed ≡ false }
    ensures { Writes (W.state out.old) (W.state out.new) (place_text thing.now) result }
{
    let mut line = TextLine::new();
    prepend_place(&mut line, thing);
    emit(out, line.as_bytes())
}

fn write_turn<W: Sink>(thing: &Thing, out: &mut W) -> Result<(), IoFault>
    requires { (W.state out.old).failed ≡ false }
    ensures { Writes (W.state out.old) (W.state out.new) (turn_text thing.now) result }
{
    let mut line = TextLine::new();
    prepend_turn(&mut line, thing);
    emit(out, line.as_bytes())
}

fn write_text<W: Sink>(number: u64, thing: &Thing, out: &mut W) -> Result<(), IoFault>
    requires { (W.state out.old).failed ≡ false }
    ensures { Writes (W.state out.old) (W.state out.new) (thing_text number thing.now) result }
{
    let mut line = TextLine::new();
    prepend_thing(&mut line, number, thing);
    emit(out, line.as_bytes())
}

// What it is to a player, and where it stands.
fn prepend_place(line: &mut TextLine, thing: &Thing)
    requires { line.old ≡ [] }
    ensures { line.new ≡ place_text thing.now }
{
    line.prepend_bytes(b")");
    prepend_word(line, &thing.y);
    line.prepend_bytes(b" ");
    prepend_word(line, &thing.x);
    line.prepend_bytes(b"\" transform=\"translate(");
    line.prepend_bytes(class_name(class_of(thing.kind)));
    line.prepend_bytes(b"<path class=\"p ");
}

// Where it looks.
fn prepend_turn(line: &mut TextLine, thing: &Thing)
    requires { line.old ≡ [] }
    ensures { line.new ≡ turn_text thing.now }
{
    line.prepend_bytes(b")\" d=\"M20 0L-12 14v-28z\"><title>");
    prepend_number(line, &turn_of(thing.angle));
    line.prepend_bytes(b"rotate(");
}

// By how many degrees the game turns a thing, from east towards north: by whole eighths.
fn turn_of(angle: i16) -> i32
    ensures { result ≡ turn_of angle }
{
    i32::from(angle / EIGHTH) * i32::from(EIGHTH)
}

// What it is.
fn prepend_thing(line: &mut TextLine, number: u64, thing: &Thing)
    requires { line.old ≡ [] }
    ensures { line.new ≡ thing_text number thing.now }
{
    line.prepend_bytes(b"</title></path>\n");
    prepend_word(line, &thing.options);
    line.prepend_bytes(b", flags ");
    prepend_word(line, &thing.angle);
    line.prepend_bytes(b", angle ");
    prepend_word(line, &thing.kind);
    line.prepend_bytes(b": type ");
    line.prepend_natural(number);
    line.prepend_bytes(b"thing ");
}
