//! The survey of a file: an object for each of its levels, a line each.

ghost use Rattle.std.specs.Prelude.{◌≡◌, false, length};
ghost use Rattle.level_starts.specs.Starts.{LevelStartsAt};
ghost use Rattle.wad_dir.specs.Entries.{names};
ghost use Rattle.lens_engines.specs.Survey.{RunsSurvey, Surveys, SurveysLevel, SurveysOrWants, line_end};
ghost use Rattle.lens_engines.specs.Warned.{known_files};

use crate::base::over_base;
use crate::judging::Judging;
use crate::surveyed::{Surveyed, write_surveyed};
use crate::verdict::{LevelsFault, Verdict};
use crate::warned::asked_resources;
use le_rec::Sink;
use lens_texts::label_of;
use level_starts::LevelStarts;
use line_io::IoFault;
use map_warnings::Resources;
use std::alloc::Allocator;
use wad_dir::{Set, SetFault};

/// Writes an object for each level of a file, hidden ones too, in the order of their labels, and returns the gravest verdict.
/// The path is written as it is handed in. No file is looked up by it.
///
/// `NoWad` comes before anything is written. So may `Memory`, or it comes between two lines. `Write` comes within a line. The
/// memory for a level is freed before the next one, and no finding or warning is kept.
pub fn survey_file<A: Allocator + Copy, W: Sink>(
    alloc: A,
    path: &[u8],
    bytes: &[u8],
    judging: Judging<'_>,
    out: &mut W,
) -> Result<Verdict, LevelsFault>
    requires { (W.state out.old).failed ≡ false }
    ensures { RunsSurvey W.state path.now bytes.now judging.entry out.old out.new result }
{
    match Set::one(alloc, bytes) {
        Ok(set) => survey_over(alloc, path, &set, judging, out),
        Err(SetFault::File(_, fault)) => Err(LevelsFault::NoWad(fault)),
        Err(SetFault::Memory) => Err(LevelsFault::Memory),
    }
}

// Writes the lines of all levels of a set. Writes nothing if there is no memory to look up its textures and flats.
fn survey_over<A: Allocator + Copy, W: Sink>(
    alloc: A,
    path: &[u8],
    set: &Set<'_, A>,
    judging: Judging<'_>,
    out: &mut W,
) -> Result<Verdict, LevelsFault>
    requires alone { length set.now ≡ 1 }
    requires sound { (W.state out.old).failed ≡ false }
    ensures { SurveysOrWants W.state path.now set.now judging.entry out.old out.new result }
{
    let Ok(known) = over_base(alloc, judging.base, set) else {
        return Err(LevelsFault::Memory);
    };
    let Ok(resources) = asked_resources(alloc, &known, judging.warnings) else {
        return Err(LevelsFault::Memory);
    };
    survey_set(alloc, path, set, &resources, judging, out)
}

// Writes the lines of all levels of a set. Its textures and flats are known if warnings are looked for.
fn survey_set<A: Allocator + Copy, W: Sink>(
    alloc: A,
    path: &[u8],
    set: &Set<'_, A>,
    resources: &Option<Resources<'_, '_, A>>,
    judging: Judging<'_>,
    out: &mut W,
) -> Result<Verdict, LevelsFault>
    requires known { resources.now ≡ known_files judging set.now }
    requires sound { (W.state out.old).failed ≡ false }
    ensures { Surveys path.now set.now judging.entry (W.state out.old) (W.state out.new) result }
{
    let mut worst = Verdict::Clean;
    'levels: for g in LevelStarts::of(set) {
        let verdict = match survey_level(alloc, path, set, resources, g, judging, out) {
            Ok(verdict) => verdict,
            Err(fault) => return Err(fault.after(worst)),
        };
        worst = worst.graver(verdict);
    }
    Ok(worst)
}

// Writes the line of the level that starts at an entry.
fn survey_level<A: Allocator + Copy, W: Sink>(
    alloc: A,
    path: &[u8],
    set: &Set<'_, A>,
    resources: &Option<Resources<'_, '_, A>>,
    g: usize,
    judging: Judging<'_>,
    out: &mut W,
) -> Result<Verdict, LevelsFault>
    requires known { resources.now ≡ known_files judging set.now }
    requires starts { LevelStartsAt (names set.now) g }
    requires sound { (W.state out.old).failed ≡ false }
    ensures { SurveysLevel W.state path.now set.now judging.entry g out.old out.new result }
{
    let name = label_of(set, g);
    let Ok(surveyed) = Surveyed::at(alloc, set, resources, g, judging) else {
        return Err(LevelsFault::Memory);
    };
    line_end(
        surveyed.verdict(),
        write_surveyed(path, &name, g, &surveyed, out),
    )
}

// The end of a level's line: its verdict, if the line was written.
fn line_end(verdict: Verdict, wrote: Result<(), IoFault>) -> Result<Verdict, LevelsFault>
    ensures { result ≡ line_end verdict wrote }
{
    match wrote {
        Ok(()) => Ok(verdict),
        Err(_) => Err(LevelsFault::Write(verdict)),
    }
}
