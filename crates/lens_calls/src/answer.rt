//! A question answered, and the status for it.

ghost use Rattle.std.specs.Prelude.{◌≡◌, IfErr, IfOk, length, map};
ghost use Rattle.lens_reports.specs.Run.{AreSound};
ghost use Rattle.lens_calls.specs.Answer.{Answers, DoesListing, DoesLens, lens_status};
ghost use Rattle.lens_calls.specs.Asked.{Takes};
ghost use Rattle.lens_calls.specs.declared.asked.LensFault.TheVariants.{Full};

use crate::asked::{LensFault, LensRequest, LensWord};
use crate::assemble::assemble_input;
use crate::compare::compare_files;
use crate::cut::cut_file;
use crate::draw_files::draw_files;
use crate::explain::explain;
use crate::listing::list_file;
use crate::tell::tell_over;
use le_rec::Sink;
use lens_engines::Verdict;
use lens_reports::{AtOnce, HandOn, status};
use std::alloc::{Allocator, Global};

/// Answers what is asked of files, one for each path. The program's answer goes into `out`, and what it writes to standard
/// error into `errors`.
pub fn do_lens<A: Allocator + Copy, W: HandOn, E: Sink>(
    alloc: A,
    asked: &LensRequest<'_>,
    paths: &[&[u8]],
    files: &[&[u8]],
    out: &mut W,
    errors: &mut E,
) -> Result<Verdict, LensFault>
    requires as_many { length paths.now ≡ length files.now }
    requires sound { AreSound (W.state out.old) (E.state errors.old) }
    ensures { DoesLens W.state E.state asked.now (map (λ path. path.now) paths.now) (map (λ file. file.now) files.now)
        out.old out.new errors.old errors.new result }
{
    if !asked.takes(files.len()) {
        return Err(LensFault::Usage);
    }
    answer(alloc, asked, paths, files, out, errors)
}

// Answers what can be asked of so many files.
fn answer<A: Allocator + Copy, W: HandOn, E: Sink>(
    alloc: A,
    asked: &LensRequest<'_>,
    paths: &[&[u8]],
    files: &[&[u8]],
    out: &mut W,
    errors: &mut E,
) -> Result<Verdict, LensFault>
    requires takes { Takes asked.now.word asked.now.bases (length files.now) }
    requires as_many { length paths.now ≡ length files.now }
    requires sound { AreSound (W.state out.old) (E.state errors.old) }
    ensures answers { IfOk result (Answers asked.now.word asked.now.rules asked.now.bases (map (λ path. path.now) paths.now)
        (map (λ file. file.now) files.now) (W.state out.old) (W.state out.new) (E.state errors.old) (E.state errors.new)) }
    ensures full { IfErr result (λ fault. fault ≡ Full) }
{
    match &asked.word {
        LensWord::Tell(report) => tell_over(
            alloc,
            *report,
            asked.rules,
            asked.bases,
            paths,
            files,
            out,
            errors,
        ),
        LensWord::Cut(level) => cut_file(alloc, *level, paths[0], files[0], out, errors),
        LensWord::Draw(question) => draw_files(alloc, question, paths, files, out, errors),
        LensWord::List => list_file(paths[0], files[0], out, errors),
        LensWord::Compare(what) => compare_files(
            *what, paths[0], files[0], paths[1], files[1], out, errors,
        ),
        LensWord::Explain(code) => explain(*code, out),
    }
}

/// The same into a sink that holds nothing back.
pub fn answer_lens<A: Allocator + Copy, W: Sink + Drop, E: Sink>(
    alloc: A,
    asked: &LensRequest<'_>,
    paths: &[&[u8]],
    files: &[&[u8]],
    out: W,
    errors: &mut E,
) -> (W, Result<Verdict, LensFault>)
    requires as_many { length paths.now ≡ length files.now }
    requires sound { AreSound (W.state out) (E.state errors.old) }
    ensures { DoesLens W.state E.state asked.now (map (λ path. path.now) paths.now) (map (λ file. file.now) files.now)
        out result.0 errors.old errors.new result.1 }
{
    let mut sink = AtOnce(out);
    let outcome = do_lens(alloc, asked, paths, files, &mut sink, errors);
    (sink.0, outcome)
}

/// Puts a demo together from its listing.
pub fn answer_listing<W: Sink, E: Sink>(
    alloc: Global,
    listing: &[u8],
    out: &mut W,
    errors: &mut E,
) -> Result<Verdict, LensFault>
    requires { AreSound (W.state out.old) (E.state errors.old) }
    ensures { DoesListing listing.now (W.state out.old) (W.state out.new) (E.state errors.old) (E.state errors.new) result }
{
    assemble_input(alloc, listing, out, errors)
}

/// The status with which the program ends: 0 for a clean verdict, 1 for a faulty one, 2 for what isn't judged or has no
/// meaning, and 3 where there is no memory or no room.
pub fn lens_status(outcome: &Result<Verdict, LensFault>) -> u8
    ensures { result ≡ lens_status outcome.now }
{
    match *outcome {
        Ok(verdict) => status(verdict),
        Err(LensFault::Usage) => 2,
        Err(LensFault::Full) => 3,
    }
}
