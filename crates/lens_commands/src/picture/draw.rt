//! The level of a name drawn, or why it isn't.

ghost use Rattle.std.specs.Prelude.{◌≡◌, ◌≤◌, IfErr, IfOk};
ghost use Rattle.lens_commands.specs.Picture.{DrawsAt, DrawsLevel, DrawsNamed, IsFound, drawn_verdict};
ghost use Rattle.lens_reports.specs.Job.{output_end};
ghost use Rattle.lens_reports.specs.Output.{is_closed, output_state};
ghost use Rattle.lens_reports.specs.Run.{AreSound};
ghost use Rattle.lens_engines.specs.Survey.{verdict_of_format};

use crate::picture::format::undrawn_at;
use crate::picture::told::{write_format, write_named};
use le_rec::{Name8, Sink};
use lens_engines::{Verdict, format_totals};
use lens_reports::{End, Output, output_end, write_rest};
use lens_texts::{Unread, level_at};
use map_level::{Level, Reading};
use map_picture::{DrawFault, View, draw_level};
use std::alloc::Global;
use std::io::Write;
use wad_dir::Set;

/// Which level is drawn, and how.
#[derive(Clone, Copy, Debug)]
pub struct PictureQuestion<'n> {
    /// The level's name as the caller gives it; it is looked up as the game does.
    pub name: &'n [u8],
    pub reading: Reading,
    /// What of the level is drawn, and how finely.
    pub drawn: View,
}

/// Draws the level that wins the name.
pub fn draw_named<O: Write + Drop, E: Sink>(
    alloc: Global,
    question: &PictureQuestion<'_>,
    set: &Set<'_>,
    out: &mut Output<O>,
    errors: &mut E,
) -> Result<Verdict, End>
    requires sound { AreSound (output_state O.contents out.old) (E.state errors.old) }
    ensures { DrawsNamed set.now question.now O.contents out.old out.new (E.state errors.old) (E.state errors.new) result }
{
    match set.find(Name8::query(question.name)) {
        Some(g) => draw_at(alloc, question, set, g, out, errors),
        None => {
            // If standard error fails too, the message is lost.
            let _ = write_named(question.name, b"no level of this name\n", errors);
            Err(End::Refused)
        }
    }
}

// Draws the level at an entry.
fn draw_at<O: Write + Drop, E: Sink>(
    alloc: Global,
    question: &PictureQuestion<'_>,
    set: &Set<'_>,
    g: usize,
    out: &mut Output<O>,
    errors: &mut E,
) -> Result<Verdict, End>
    requires sound { AreSound (output_state O.contents out.old) (E.state errors.old) }
    ensures { DrawsAt set.now g question.now O.contents out.old out.new (E.state errors.old) (E.state errors.new) result }
{
    match undrawn_at(set, g) {
        None => {
            let level = level_at(set, g, question.reading);
            draw_whole(alloc, question, &level, out, errors)
        }
        Some(unread) => {
            // As above.
            let _ = write_format(question.name, unread, errors);
            Ok(verdict_of_format(unread))
        }
    }
}

/// The verdict on a level that isn't drawn, the same as that of `check`.
pub fn verdict_of_format(unread: Unread) -> Verdict
    ensures { result ≡ verdict_of_format unread }
{
    format_totals(unread).verdict()
}

// Draws a level.
fn draw_whole<O: Write + Drop, E: Sink>(
    alloc: Global,
    question: &PictureQuestion<'_>,
    level: &Level<'_>,
    out: &mut Output<O>,
    errors: &mut E,
) -> Result<Verdict, End>
    requires sound { AreSound (output_state O.contents out.old) (E.state errors.old) }
    ensures { DrawsLevel level.now question.now O.contents out.old out.new (E.state errors.old) (E.state errors.new) result }
{
    match draw_level(alloc, level, question.drawn, out) {
        Ok(faulty) => write_rest(drawn_verdict(faulty), out),
        Err(DrawFault::NothingToDraw) => {
            // As above.
            let _ = write_named(question.name, b"nothing to draw\n", errors);
            Err(End::Refused)
        }
        Err(DrawFault::Memory) => Err(End::Memory),
        Err(DrawFault::Write(faulty)) => Err(output_end(drawn_verdict(faulty), out)),
    }
}

/// The verdict on a level, by whether it has a fault.
pub fn drawn_verdict(faulty: bool) -> Verdict
    ensures { result ≡ drawn_verdict faulty }
{
    if faulty {
        Verdict::Faulty
    } else {
        Verdict::Clean
    }
}
