//! The run of `picture`, over any files and writers.

ghost use Rattle.std.specs.Prelude.{◌≡◌, ◌≤◌, length, map};
ghost use Rattle.lens_commands.specs.Picture.{DrawsFiles, DrawsPaths};
ghost use Rattle.lens_reports.specs.Output.{output_state};
ghost use Rattle.lens_reports.specs.Run.{AreSound};
ghost use Rattle.wad_dir.specs.declared.set.TheConstants.{MAX_FILES};
ghost use Rattle.look_engines.specs.Opening.{bytes_of};

use crate::picture::draw::{PictureQuestion, draw_named};
use crate::picture::told::tell_refused;
use le_rec::Sink;
use lens_engines::{FileRefusal, Verdict};
use lens_reports::{End, Output, ReadFault};
use line_io::{MAX_READ, Storage, read_files};
use std::alloc::Global;
use std::io::Write;
use wad_dir::{MAX_FILES, Set, SetFault};

// The most bytes that the files of a set have together.
const MOST: u64 = MAX_FILES as u64 * MAX_READ;

/// Draws a level of the files under the paths, at most 64 of them, or reports why not, and returns the verdict. On Ok the
/// buffer is empty.
pub fn run_picture<S: Storage, O: Write + Drop, E: Sink>(
    alloc: Global,
    question: &PictureQuestion<'_>,
    paths: &[&str],
    storage: &S,
    out: &mut Output<O>,
    errors: &mut E,
) -> Result<Verdict, End>
    requires few { length paths.now ≤ MAX_FILES }
    requires sound { AreSound (output_state O.contents out.old) (E.state errors.old) }
    ensures { DrawsPaths (S.held storage.now) (map (λ path. path.now) paths.now) question.now O.contents out.old out.new
        (E.state errors.old) (E.state errors.new) result }
{
    match read_files(alloc, storage, paths, MOST) {
        Ok(files) => draw_files(alloc, question, paths, &files, out, errors),
        Err(first) => match ReadFault::from_storage(first.fault) {
            ReadFault::Memory => Err(End::Memory),
            ReadFault::Refused(refusal) => {
                tell_refused(paths, first.place, refusal, errors);
                Err(End::Refused)
            }
        },
    }
}

// Draws a level of the set of files, one for each path.
fn draw_files<O: Write + Drop, E: Sink>(
    alloc: Global,
    question: &PictureQuestion<'_>,
    paths: &[&str],
    files: &[Vec<u8>],
    out: &mut Output<O>,
    errors: &mut E,
) -> Result<Verdict, End>
    requires few { length files.now ≤ MAX_FILES }
    requires as_many { length files.now ≡ length paths.now }
    requires sound { AreSound (output_state O.contents out.old) (E.state errors.old) }
    ensures { DrawsFiles (map (λ path. path.now) paths.now) (bytes_of files.now) question.now O.contents out.old out.new
        (E.state errors.old) (E.state errors.new) result }
{
    match Set::new(alloc, files) {
        Ok(set) => draw_named(alloc, question, &set, out, errors),
        Err(SetFault::Memory) => Err(End::Memory),
        Err(SetFault::File(number, why)) => {
            tell_refused(paths, number as usize - 1, FileRefusal::NoWad(why), errors);
            Err(End::Refused)
        }
    }
}
