//! The level of a name drawn, or why it isn't.

ghost use Rattle.std.specs.Prelude.{◌≡◌, IfErr, IfOk};
ghost use Rattle.lens_reports.specs.Run.{AreSound};
ghost use Rattle.lens_calls.specs.Drawn.{DrawsAt, DrawsLevel, DrawsNamed};
ghost use Rattle.lens_calls.specs.declared.asked.LensFault.TheVariants.{Full};

use crate::asked::LensFault;
use le_rec::{Name8, Sink};
use lens_commands::{
    PictureQuestion, drawn_verdict, undrawn_at, verdict_of_format, write_format, write_named,
};
use lens_engines::Verdict;
use lens_texts::level_at;
use map_level::Level;
use map_picture::{DrawFault, draw_level};
use std::alloc::Allocator;
use wad_dir::Set;

/// Draws the level that wins the name.
pub fn draw_named<A: Allocator + Copy, W: Sink, E: Sink>(
    alloc: A,
    question: &PictureQuestion<'_>,
    set: &Set<'_, A>,
    out: &mut W,
    errors: &mut E,
) -> Result<Verdict, LensFault>
    requires sound { AreSound (W.state out.old) (E.state errors.old) }
    ensures drawn { IfOk result (DrawsNamed question.now set.now (W.state out.old) (W.state out.new) (E.state errors.old) (E.state errors.new)) }
    ensures full { IfErr result (λ fault. fault ≡ Full) }
{
    match set.find(Name8::query(question.name)) {
        Some(g) => draw_at(alloc, question, set, g, out, errors),
        None => match write_named(question.name, b"no level of this name\n", errors) {
            Ok(()) => Ok(Verdict::Unjudged),
            Err(_) => Err(LensFault::Full),
        },
    }
}

// Draws the level at an entry.
fn draw_at<A: Allocator + Copy, W: Sink, E: Sink>(
    alloc: A,
    question: &PictureQuestion<'_>,
    set: &Set<'_, A>,
    g: usize,
    out: &mut W,
    errors: &mut E,
) -> Result<Verdict, LensFault>
    requires sound { AreSound (W.state out.old) (E.state errors.old) }
    ensures drawn { IfOk result (DrawsAt question.now set.now g (W.state out.old) (W.state out.new) (E.state errors.old) (E.state errors.new)) }
    ensures full { IfErr result (λ fault. fault ≡ Full) }
{
    match undrawn_at(set, g) {
        None => {
            let level = level_at(set, g, question.reading);
            draw_whole(alloc, question, &level, out, errors)
        }
        Some(unread) => match write_format(question.name, unread, errors) {
            Ok(()) => Ok(verdict_of_format(unread)),
            Err(_) => Err(LensFault::Full),
        },
    }
}

// Draws a level.
fn draw_whole<A: Allocator + Copy, W: Sink, E: Sink>(
    alloc: A,
    question: &PictureQuestion<'_>,
    level: &Level<'_>,
    out: &mut W,
    errors: &mut E,
) -> Result<Verdict, LensFault>
    requires sound { AreSound (W.state out.old) (E.state errors.old) }
    ensures drawn { IfOk result (DrawsLevel question.now level.now (W.state out.old) (W.state out.new) (E.state errors.old) (E.state errors.new)) }
    ensures full { IfErr result (λ fault. fault ≡ Full) }
{
    match draw_level(alloc, level, question.drawn, out) {
        Ok(faulty) => Ok(drawn_verdict(faulty)),
        Err(DrawFault::NothingToDraw) => {
            match write_named(question.name, b"nothing to draw\n", errors) {
                Ok(()) => Ok(Verdict::Unjudged),
                Err(_) => Err(LensFault::Full),
            }
        }
        Err(DrawFault::Memory | DrawFault::Write(_)) => Err(LensFault::Full),
    }
}
