//! A level of the set that files form, drawn.

ghost use Rattle.std.specs.Prelude.{◌≡◌, ◌<◌, ◌≤◌, false, length, map, IfErr, IfOk};
ghost use Rattle.lens_reports.specs.Run.{AreSound};
ghost use Rattle.wad_dir.specs.declared.set.TheConstants.{MAX_FILES};
ghost use Rattle.lens_calls.specs.Drawn.{DrawsFiles, DrawsTogether, RefusesAt};
ghost use Rattle.lens_calls.specs.declared.asked.LensFault.TheVariants.{Full};

use crate::asked::LensFault;
use crate::draw::draw_named;
use crate::large::first_large;
use le_rec::Sink;
use lens_commands::PictureQuestion;
use lens_engines::{FileRefusal, Verdict};
use lens_reports::write_refusal;
use std::alloc::Allocator;
use wad_dir::{Set, SetFault};

/// Draws a level of the set of files, one for each path, or reports why not.
pub fn draw_files<A: Allocator + Copy, W: Sink, E: Sink>(
    alloc: A,
    question: &PictureQuestion<'_>,
    paths: &[&[u8]],
    files: &[&[u8]],
    out: &mut W,
    errors: &mut E,
) -> Result<Verdict, LensFault>
    requires few { length files.now ≤ MAX_FILES }
    requires as_many { length files.now ≡ length paths.now }
    requires sound { AreSound (W.state out.old) (E.state errors.old) }
    ensures drawn { IfOk result (DrawsFiles question.now (map (λ path. path.now) paths.now) (map (λ file. file.now) files.now)
        (W.state out.old) (W.state out.new) (E.state errors.old) (E.state errors.new)) }
    ensures full { IfErr result (λ fault. fault ≡ Full) }
{
    match first_large(files) {
        Some(place) => refuse_at(paths, place, FileRefusal::TooLarge, errors),
        None => draw_together(alloc, question, paths, files, out, errors),
    }
}

// Draws a level of the set of files.
fn draw_together<A: Allocator + Copy, W: Sink, E: Sink>(
    alloc: A,
    question: &PictureQuestion<'_>,
    paths: &[&[u8]],
    files: &[&[u8]],
    out: &mut W,
    errors: &mut E,
) -> Result<Verdict, LensFault>
    requires few { length files.now ≤ MAX_FILES }
    requires as_many { length files.now ≡ length paths.now }
    requires sound { AreSound (W.state out.old) (E.state errors.old) }
    ensures drawn { IfOk result (DrawsTogether question.now (map (λ path. path.now) paths.now) (map (λ file. file.now) files.now)
        (W.state out.old) (W.state out.new) (E.state errors.old) (E.state errors.new)) }
    ensures full { IfErr result (λ fault. fault ≡ Full) }
{
    match Set::new(alloc, files) {
        Ok(set) => draw_named(alloc, question, &set, out, errors),
        Err(SetFault::Memory) => Err(LensFault::Full),
        Err(SetFault::File(number, why)) => {
            refuse_at(paths, number as usize - 1, FileRefusal::NoWad(why), errors)
        }
    }
}

// Reports that the file of a place is refused, and why.
fn refuse_at<E: Sink>(
    paths: &[&[u8]],
    place: usize,
    refusal: FileRefusal,
    errors: &mut E,
) -> Result<Verdict, LensFault>
    requires there { place < length paths.now }
    requires sound { (E.state errors.old).failed ≡ false }
    ensures told { IfOk result (RefusesAt (map (λ path. path.now) paths.now) place refusal (E.state errors.old) (E.state errors.new)) }
    ensures full { IfErr result (λ fault. fault ≡ Full) }
{
    match write_refusal(paths[place], refusal, errors) {
        Ok(()) => Ok(Verdict::Unjudged),
        Err(_) => Err(LensFault::Full),
    }
}
