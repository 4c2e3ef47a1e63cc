//! What goes from each file onto the page and into the folder.

ghost use Rattle.std.specs.Prelude.{◌≡◌, ◌≤◌, ◌++◌, false, true, [], ◌∷◌, IfErr, IfOk, Ok, OnOk, OnErr, length, map};
ghost use Rattle.atlas_page.specs.Levels.{AddsRows};
ghost use Rattle.wad_dir.specs.Entries.{names};
ghost use Rattle.lens_engines.specs.Survey.{SurveysFile};
ghost use Rattle.lens_commands.specs.Atlas.{survey_of};
ghost use Rattle.lens_reports.specs.Files.{at_path, stored};
ghost use Rattle.lens_commands.specs.Gathered.{AddsFront, AddsLevels, AddsPath, GathersAll, GathersSome};
ghost use Rattle.lens_commands.specs.Until.{LeavesLevels, LeavesPath, LeavesRefused, StopsAtFile, stop_fault};
ghost use Rattle.lens_reports.specs.Run.{AreSound, TellsPath, ToldTo, WritesRefusal, survey_tally};
ghost use Rattle.lens_reports.specs.declared.tell.ReportKind.TheVariants.{Survey};

use crate::atlas::fault::{AtlasFault, FileFault, KeepFault};
use crate::atlas::folder::Folder;
use crate::atlas::job::AtlasRequest;
use crate::atlas::lines::write_lines;
use crate::atlas::pictures::draw_rows;
use atlas_page::{Origin, RefusedFile, Row, push_rows};
use le_rec::Sink;
use lens_engines::{FileRefusal, Verdict, asked_resources, over_base};
use lens_reports::{ReadFault, ReportKind, ReportSum, Stop, no_tally, read_path, tell_refusal};
use lens_texts::{HandOn, Watch};
use line_io::Storage;
use map_picture::View;
use std::alloc::{AllocError, Global};
use wad_dir::{Set, SetFault};

/// What goes onto the page from some files.
#[derive(Drop)]
pub struct Gathered<'p> {
    /// Their levels, in order.
    pub rows: Vec<Row<'p>>,
    /// The files that are refused, in order.
    pub refused: Vec<RefusedFile<'p>>,
    /// What was found.
    pub tally: ReportSum,
}

/// The files of an atlas: where they are read, and their paths.
#[derive(Clone, Copy)]
pub struct AtlasFiles<'s, 'p, S> {
    pub storage: &'s S,
    pub paths: &'s [&'p [u8]],
}

/// Goes over the files under some paths, in order. Their survey goes into `survey`, their pictures into the folder, and the
/// reason of a refusal into `errors`. Each file is freed before the next is opened.
pub fn gather<'p, S: Storage, F: Folder, E: Sink, P: Watch>(
    alloc: Global,
    asked: &AtlasRequest<'_>,
    files: &AtlasFiles<'_, 'p, S>,
    survey: &mut F::File,
    folder: &mut F,
    errors: &mut E,
    watch: &mut P,
) -> Result<Gathered<'p>, AtlasFault>
    requires taken { F.taken folder.old ≡ true }
    requires sound { AreSound (F.File.state survey.old) (E.state errors.old) }
    ensures taken { F.taken folder.new ≡ true }
    ensures told { IfOk result (λ gathered. ToldTo (stored (S.held files.now.storage.now)) (survey_of asked.now.judging)
        (F.File.state survey.old) (E.state errors.old)
        (map (λ path. path.now) files.now.paths.now) (F.File.state survey.new) (E.state errors.new) gathered.tally) }
    ensures all { IfOk result (λ gathered. GathersAll (S.held files.now.storage.now) asked.now (map (λ path. path.now) files.now.paths.now)
        gathered.rows.items gathered.refused.items (F.kept folder.old) (F.kept folder.new)
        (F.File.state survey.old) (F.File.state survey.new) (E.state errors.old) (E.state errors.new) gathered.tally) }
    ensures some { OnErr result (GathersSome (S.held files.now.storage.now) asked.now (map (λ path. path.now) files.now.paths.now)
        (F.kept folder.old) (F.kept folder.new) (F.File.state survey.old) (E.state errors.old)) }
    ensures stopped { IfErr result (StopsAtFile (S.held files.now.storage.now) (survey_of asked.now.judging)
        (map (λ path. path.now) files.now.paths.now)
        (F.File.state survey.old) (E.state errors.old) (F.File.state survey.new) (E.state errors.new)) }
{
    let storage = files.storage;
    let paths = files.paths;
    let mut gathered = Gathered {
        rows: Vec::new(alloc),
        refused: Vec::new(alloc),
        tally: no_tally(),
    };
    for i in 0..paths.len() {
        let file = AtlasFile {
            storage,
            origin: Origin {
                file: i as u64 + 1,
                path: paths[i],
                judging: asked.judging,
                most: asked.most,
            },
            drawn: asked.drawn,
        };
        let tally = add_path(alloc, &file, &mut gathered, survey, folder, errors, watch)?;
        gathered.tally = gathered.tally.with(tally);
    }
    Ok(gathered)
}

// A file of an atlas, and how the pictures of its levels are drawn.
#[derive(Clone, Copy)]
struct AtlasFile<'p, 'b, S> {
    storage: &'b S,
    origin: Origin<'p, 'b>,
    drawn: View,
}

// Adds a file.
fn add_path<'p, S: Storage, F: Folder, E: Sink, P: Watch>(
    alloc: Global,
    file: &AtlasFile<'p, '_, S>,
    gathered: &mut Gathered<'p>,
    survey: &mut F::File,
    folder: &mut F,
    errors: &mut E,
    watch: &mut P,
) -> Result<ReportSum, AtlasFault>
    requires taken { F.taken folder.old ≡ true }
    requires sound { AreSound (F.File.state survey.old) (E.state errors.old) }
    ensures taken { F.taken folder.new ≡ true }
    ensures told { IfOk result (TellsPath (at_path (S.held file.now.storage.now file.now.origin.path.now))
        (survey_of file.now.origin.judging) file.now.origin.path.now
        (F.File.state survey.old) (F.File.state survey.new) (E.state errors.old) (E.state errors.new)) }
    ensures sound { OnOk result (AreSound (F.File.state survey.new) (E.state errors.new)) }
    ensures adds { IfOk result (AddsPath (S.held file.now.storage.now file.now.origin.path.now) file.now.drawn file.now.origin
        gathered.old gathered.new (F.kept folder.old) (F.kept folder.new) (F.File.state survey.old) (F.File.state survey.new)
        (E.state errors.old) (E.state errors.new)) }
    ensures front { OnErr result (AddsFront (S.held file.now.storage.now file.now.origin.path.now) file.now.drawn file.now.origin
        (F.kept folder.old) (F.kept folder.new)) }
    ensures stopped { IfErr result (LeavesPath (S.held file.now.storage.now file.now.origin.path.now)
        (survey_of file.now.origin.judging) file.now.origin.path.now
        (F.File.state survey.old) (F.File.state survey.new) (E.state errors.old) (E.state errors.new)) }
{
    let origin = &file.origin;
    match read_path(Vec::new(alloc), file.storage, origin.path) {
        Ok(bytes) => {
            match add_levels(
                alloc,
                file.drawn,
                origin,
                &bytes,
                &mut gathered.rows,
                survey,
                folder,
            ) {
                Ok(verdict) => {
                    watch.add(alloc, &bytes);
                    Ok(survey_tally(verdict))
                }
                Err(FileFault::NoWad(why)) => {
                    let refused = RefusedFile {
                        path: origin.path,
                        why: FileRefusal::NoWad(why),
                    };
                    add_refused(refused, &mut gathered.refused, survey, errors, watch)
                }
                Err(FileFault::Keep(fault)) => Err(AtlasFault::from(fault)),
            }
        }
        Err(ReadFault::Refused(why)) => {
            let refused = RefusedFile {
                path: origin.path,
                why,
            };
            add_refused(refused, &mut gathered.refused, survey, errors, watch)
        }
        Err(ReadFault::Memory) => Err(AtlasFault::Memory),
    }
}

// The tally of a file whose survey has this verdict.
fn survey_tally(verdict: Verdict) -> ReportSum
    ensures { result ≡ survey_tally verdict }
{
    ReportSum {
        verdict,
        totals: no_tally().totals,
    }
}

// Adds the levels of a file's bytes: their rows, then their lines of the survey, and then their pictures.
fn add_levels<'p, F: Folder>(
    alloc: Global,
    drawn: View,
    origin: &Origin<'p, '_>,
    bytes: &[u8],
    rows: &mut Vec<Row<'p>>,
    survey: &mut F::File,
    folder: &mut F,
) -> Result<Verdict, FileFault>
    requires taken { F.taken folder.old ≡ true }
    requires sound { (F.File.state survey.old).failed ≡ false }
    ensures taken { F.taken folder.new ≡ true }
    ensures told { IfOk result (λ verdict. SurveysFile origin.now.path.now bytes.now origin.now.judging
        (F.File.state survey.old) (F.File.state survey.new) (Ok verdict)) }
    ensures sound { OnOk result ((F.File.state survey.new).failed ≡ false) }
    ensures adds { OnOk result (AddsLevels drawn origin.now bytes.now rows.old.items rows.new.items (F.kept folder.old) (F.kept folder.new)) }
    ensures left { IfErr result (LeavesLevels F.File.state drawn origin.now bytes.now survey.old survey.new
        rows.old.items rows.new.items (F.kept folder.old) (F.kept folder.new)) }
{
    let set = match Set::one(alloc, bytes) {
        Ok(set) => set,
        Err(SetFault::File(_, why)) => return Err(FileFault::NoWad(why)),
        Err(SetFault::Memory) => return Err(FileFault::Keep(KeepFault::Memory)),
    };
    let before = rows.len();
    let Ok(()) = add_rows(alloc, origin, &set, rows) else {
        return Err(FileFault::Keep(KeepFault::Memory));
    };
    let added = &rows[before..];
    let Ok(verdict) = write_lines(added, survey) else {
        return Err(FileFault::Keep(KeepFault::Write));
    };
    match draw_rows(alloc, &drawn, origin, &set, added, folder) {
        Ok(()) => Ok(verdict),
        Err(fault) => Err(FileFault::Keep(fault)),
    }
}

// Adds the rows of a set's levels.
fn add_rows<'p>(
    alloc: Global,
    origin: &Origin<'p, '_>,
    set: &Set<'_>,
    rows: &mut Vec<Row<'p>>,
) -> Result<(), AllocError>
    requires { length set.now ≡ 1 }
    ensures { OnOk result (AddsRows origin.now set.now (length (names set.now)) rows.old.items rows.new.items) }
{
    let known = over_base(alloc, origin.judging.base, set)?;
    let resources = asked_resources(alloc, &known, origin.judging.warnings)?;
    push_rows(alloc, alloc, origin, set, &resources, rows)
}

// Reports that a file is refused, and adds it to the refused ones.
fn add_refused<'p, W: HandOn, E: Sink, P: Watch>(
    one: RefusedFile<'p>,
    refused: &mut Vec<RefusedFile<'p>>,
    survey: &mut W,
    errors: &mut E,
    watch: &mut P,
) -> Result<ReportSum, AtlasFault>
    requires { AreSound (W.state survey.old) (E.state errors.old) }
    ensures told { IfOk result (WritesRefusal Survey one.entry.path.now one.entry.why
        (W.state survey.old) (W.state survey.new) (E.state errors.old) (E.state errors.new)) }
    ensures sound { OnOk result (AreSound (W.state survey.new) (E.state errors.new)) }
    ensures adds { OnOk result (refused.new.items ≡ refused.old.items ++ one.entry ∷ []) }
    ensures stopped { IfErr result (LeavesRefused one.entry.path.now one.entry.why
        (W.state survey.old) (W.state survey.new) (E.state errors.old) (E.state errors.new)) }
{
    let told = tell_refusal(ReportKind::Survey, one.path, one.why, survey, errors, watch);
    match told {
        Ok(tally) => {
            if refused.push(one).is_err() {
                return Err(AtlasFault::Memory);
            }
            Ok(tally)
        }
        Err(stop) => Err(stop_fault(stop)),
    }
}

// Why an atlas isn't whole, if the report on its files stopped.
fn stop_fault(stop: Stop) -> AtlasFault
    ensures { result ≡ stop_fault stop }
{
    match stop {
        Stop::Output(_) => AtlasFault::Write,
        Stop::Errors => AtlasFault::Errors,
        Stop::Memory => AtlasFault::Memory,
    }
}
