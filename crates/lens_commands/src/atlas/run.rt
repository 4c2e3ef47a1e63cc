//! The run of `atlas`.

ghost use Rattle.std.specs.Prelude.{◌≡◌, ◌≤◌, ◌∷◌, [], false, true, IfOk, IfErr, IfSome, OnOk, OnErr, length, map};
ghost use Rattle.lens_commands.specs.Atlas.{EndsAtlas, RunsAtlas, RunsTaken, StopsAtlas, TellsFault, is_all_refused, page_file, survey_of};
ghost use Rattle.lens_commands.specs.Folder.{with_files};
ghost use Rattle.lens_commands.specs.AtlasTold.{fault_end, folder_line, write_text};
ghost use Rattle.lens_commands.specs.Until.{TellsUntil};
ghost use Rattle.lens_reports.specs.Run.{IsTold};

use crate::atlas::fault::{AtlasFault, KeepFault};
use crate::atlas::folder::{Folder, FolderFault};
use crate::atlas::gather::{AtlasFiles, Gathered, gather};
use crate::atlas::job::{AtlasJob, AtlasRequest};
use crate::atlas::tell::{fault_end, write_folder_line};
use atlas_page::{Page, PageHead, RefusedFile, write_page};
use le_rec::Sink;
use lens_engines::{Base, Verdict, Warnings};
use lens_reports::{
    End, ReadFault, Stored, Watch, all_paths, read_bases, read_list, refuse_base, wads_of,
    word_paths, write_refusal,
};
use line_io::Storage;
use std::alloc::Global;
use std::io::Read;

/// The survey among the files of the folder.
const SURVEY: &[u8] = b"survey.jsonl";

/// The page.
const INDEX: &[u8] = b"index.html";

/// Makes an atlas of the files of a job in a folder, and returns the gravest verdict. The list is read before the folder is
/// looked at; all other files are read after.
pub fn run_atlas<S: Storage, I: Read + Drop, F: Folder, E: Sink, P: Watch>(
    alloc: Global,
    job: &AtlasJob<'_>,
    storage: &S,
    reader: I,
    folder: &mut F,
    errors: &mut E,
    watch: &mut P,
) -> Result<Verdict, End>
    requires sound { (E.state errors.old).failed ≡ false }
    ensures { RunsAtlas (S.held storage.now) (I.remaining reader) (F.refuses folder.old) job.now (F.kept folder.old) (F.kept folder.new)
        (E.state errors.old) (E.state errors.new) result }
{
    let list = match read_list(alloc, &job.job, storage, reader) {
        Ok(list) => list,
        Err(ReadFault::Memory) => return Err(End::Memory),
        Err(ReadFault::Refused(refusal)) => {
            // If standard error fails too, the message is lost.
            let _ = write_refusal(job.job.list_name(), refusal, errors);
            return Err(End::Refused);
        }
    };
    let Ok(paths) = all_paths(alloc, &job.job.files, &list, job.job.list_end) else {
        return Err(End::Memory);
    };
    match folder.make() {
        Ok(()) => {}
        Err(FolderFault::Memory) => return Err(End::Memory),
        Err(FolderFault::Refused(refusal)) => {
            // As above.
            let _ = write_folder_line(job.folder, refusal.text(), errors);
            return Err(End::Refused);
        }
    }
    run_taken(alloc, job, &paths, storage, folder, errors, watch)
}

// Makes the atlas of the files under all paths in a folder that was taken, over the base files.
fn run_taken<S: Storage, F: Folder, E: Sink, P: Watch>(
    alloc: Global,
    job: &AtlasJob<'_>,
    paths: &[&[u8]],
    storage: &S,
    folder: &mut F,
    errors: &mut E,
    watch: &mut P,
) -> Result<Verdict, End>
    requires taken { F.taken folder.old ≡ true }
    requires empty { IfSome (F.kept folder.old) (λ files. files ≡ []) }
    requires sound { (E.state errors.old).failed ≡ false }
    ensures { RunsTaken (S.held storage.now) job.now (map (λ path. path.now) paths.now) (F.kept folder.old) (F.kept folder.new)
        (E.state errors.old) (E.state errors.new) result }
{
    let files = Stored(storage);
    let Ok(base_paths) = word_paths(alloc, job.job.bases.paths()) else {
        return Err(End::Memory);
    };
    let held = match read_bases(alloc, &files, &base_paths) {
        Ok(held) => held,
        Err(first) => return Err(refuse_base(&base_paths, first, errors)),
    };
    let Ok(wads) = wads_of(alloc, &held) else {
        return Err(End::Memory);
    };
    let Some(base) = Base::of(&wads) else {
        unreachable!();
    };
    let asked = AtlasRequest {
        judging: job.job.rules.over(&base),
        head: job.head,
        most: job.most,
        drawn: job.drawn,
    };
    match write_atlas(alloc, &asked, paths, storage, folder, errors, watch) {
        Ok(verdict) => Ok(verdict),
        Err(fault) => Err(tell_fault(job.folder, fault, errors)),
    }
}

/// Writes the files of an atlas into a folder: the pictures, the survey, and the page last. If all files are refused, there is
/// nothing to show: nothing is kept, and the folder is left.
pub fn write_atlas<S: Storage, F: Folder, E: Sink, P: Watch>(
    alloc: Global,
    asked: &AtlasRequest<'_>,
    paths: &[&[u8]],
    storage: &S,
    folder: &mut F,
    errors: &mut E,
    watch: &mut P,
) -> Result<Verdict, AtlasFault>
    requires taken { F.taken folder.old ≡ true }
    requires sound { (E.state errors.old).failed ≡ false }
    ensures all { IfOk result (EndsAtlas (S.held storage.now) asked.now (map (λ path. path.now) paths.now)
        (F.kept folder.old) (F.kept folder.new) (E.state errors.old) (E.state errors.new)) }
    ensures some { OnErr result (StopsAtlas (S.held storage.now) asked.now (map (λ path. path.now) paths.now)
        (F.kept folder.old) (F.kept folder.new) (E.state errors.old) (E.state errors.new)) }
    ensures told { IfErr result (TellsUntil (S.held storage.now) (survey_of asked.now.judging) (map (λ path. path.now) paths.now)
        (F.kept folder.old) (F.kept folder.new) (E.state errors.old) (E.state errors.new)) }
{
    let mut survey = folder.begin(SURVEY)?;
    let files = AtlasFiles { storage, paths };
    let gathered = gather(alloc, asked, &files, &mut survey, folder, errors, watch);
    watch.finish();
    match gathered {
        Ok(gathered) => {
            if is_all_refused(paths, &gathered.refused) {
                folder.discard(survey, SURVEY);
                folder.leave();
                return Ok(gathered.tally.verdict);
            }
            folder.keep(survey, SURVEY)?;
            write_index(
                &asked.head,
                asked.judging.warnings,
                paths.len() as u64,
                &gathered,
                folder,
            )?;
            Ok(gathered.tally.verdict)
        }
        Err(fault) => {
            folder.discard(survey, SURVEY);
            Err(fault)
        }
    }
}

// Whether there are files, and all are refused.
fn is_all_refused(paths: &[&[u8]], refused: &[RefusedFile<'_>]) -> bool
    ensures { result ≡ is_all_refused (length paths.now) (length refused.now) }
{
    (paths.len() > 0) & (refused.len() == paths.len())
}

// Writes the page into the folder.
fn write_index<F: Folder>(
    head: &PageHead<'_>,
    warnings: Warnings,
    files: u64,
    gathered: &Gathered<'_>,
    folder: &mut F,
) -> Result<(), KeepFault>
    requires taken { F.taken folder.old ≡ true }
    ensures taken { F.taken folder.new ≡ true }
    ensures written { OnOk result (F.kept folder.new
        ≡ with_files (F.kept folder.old) (page_file head.now warnings files gathered.now.rows.items gathered.now.refused.items ∷ [])) }
    ensures kept { OnErr result (F.kept folder.new ≡ F.kept folder.old) }
{
    let mut file = folder.begin(INDEX)?;
    let page = Page {
        head,
        files,
        warnings,
        rows: &gathered.rows,
        refused: &gathered.refused,
    };
    match write_page(&page, &mut file) {
        Ok(()) => folder.keep(file, INDEX),
        Err(_) => {
            folder.discard(file, INDEX);
            Err(KeepFault::Write)
        }
    }
}

// Reports that a file of the folder can't be written, if the run ends for that reason.
fn tell_fault<E: Sink>(folder: &[u8], fault: AtlasFault, errors: &mut E) -> End
    ensures end { result ≡ fault_end fault }
    ensures told { TellsFault folder.now fault (E.state errors.old) (E.state errors.new) }
{
    if fault == AtlasFault::Write {
        tell_unwritten(folder, errors);
    }
    fault_end(fault)
}

// Reports that a file of the folder can't be written.
fn tell_unwritten<E: Sink>(folder: &[u8], errors: &mut E)
    ensures { IsTold (E.state errors.old) (E.state errors.new) (folder_line folder.now write_text) }
{
    // If standard error fails too, the message is lost.
    if !errors.failed() {
        let _ = write_folder_line(folder, b"a file in it can't be written", errors);
    }
}
