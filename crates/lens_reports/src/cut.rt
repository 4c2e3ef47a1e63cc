//! The run of `cut`: a level of one file alone, over any files and writers.

ghost use Rattle.std.specs.Prelude.{◌≡◌, codes, ◌++◌, false};
ghost use Rattle.line_io.specs.Writes.{Writes};
ghost use Rattle.lens_engines.specs.Cut.{HasLump, IsCut, cut_fault_text};
ghost use Rattle.lens_engines.specs.declared.verdict.Verdict.TheVariants.{Clean};
ghost use Rattle.lens_texts.specs.ShownPath.{shown_path};
ghost use Rattle.lens_reports.specs.CutJob.{CutsAsked, CutsBytes, CutsNamed, CutsPath, cut_fault_end, cut_fault_line, no_name_line, uncut_end};
ghost use Rattle.lens_reports.specs.Job.{TellsRest};
ghost use Rattle.lens_reports.specs.Output.{output_state};
ghost use Rattle.lens_reports.specs.Run.{AreSound};

use crate::end::End;
use crate::files::{ReadFault, read_path};
use crate::output::Output;
use crate::run::{output_end, write_rest};
use crate::tell::write_refusal;
use le_rec::{Name8, Sink};
use lens_engines::{CutFault, Uncut, Verdict, cut_level, write_cut_fault};
use lens_texts::write_path;
use line_io::{IoFault, Storage, emit};
use std::alloc::Global;
use std::io::Write;
use wad_dir::{Set, SetFault};

/// Which level of a file is cut out.
#[derive(Clone, Copy, Debug)]
pub enum CutAsked<'n> {
    /// The one whose label is the entry of this number.
    Entry(u64),
    /// The one whose label wins this name, which is looked up as the game does.
    Named(&'n [u8]),
}

/// Writes a level of the file under a path, or reports why not. On Ok the buffer is empty.
pub fn run_cut<S: Storage, O: Write + Drop, E: Sink>(
    alloc: Global,
    asked: CutAsked<'_>,
    path: &[u8],
    storage: &S,
    out: &mut Output<O>,
    errors: &mut E,
) -> Result<Verdict, End>
    requires { AreSound (output_state O.contents out.old) (E.state errors.old) }
    ensures { CutsPath (S.held storage.now path.now) asked.entry path.now O.contents out.old out.new
        (E.state errors.old) (E.state errors.new) result }
{
    match read_path(Vec::new(alloc), storage, path) {
        Ok(bytes) => cut_asked(alloc, asked, path, &bytes, out, errors),
        Err(ReadFault::Memory) => Err(End::Memory),
        Err(ReadFault::Refused(refusal)) => {
            // If standard error fails too, the message is lost.
            let _ = write_refusal(path, refusal, errors);
            Err(End::Refused)
        }
    }
}

// Writes the level of a file's bytes that is asked for, or reports why not.
fn cut_asked<O: Write + Drop, E: Sink>(
    alloc: Global,
    asked: CutAsked<'_>,
    path: &[u8],
    bytes: &[u8],
    out: &mut Output<O>,
    errors: &mut E,
) -> Result<Verdict, End>
    requires { AreSound (output_state O.contents out.old) (E.state errors.old) }
    ensures { CutsAsked asked.entry bytes.now path.now O.contents out.old out.new (E.state errors.old) (E.state errors.new) result }
{
    match asked {
        CutAsked::Entry(entry) => cut_bytes(alloc, entry, path, bytes, out, errors),
        CutAsked::Named(name) => cut_named(alloc, name, path, bytes, out, errors),
    }
}

// Writes the level that wins a name in a file's bytes, or reports why not.
fn cut_named<O: Write + Drop, E: Sink>(
    alloc: Global,
    name: &[u8],
    path: &[u8],
    bytes: &[u8],
    out: &mut Output<O>,
    errors: &mut E,
) -> Result<Verdict, End>
    requires { AreSound (output_state O.contents out.old) (E.state errors.old) }
    ensures { CutsNamed bytes.now name.now path.now O.contents out.old out.new (E.state errors.old) (E.state errors.new) result }
{
    match Set::one(alloc, bytes) {
        Ok(set) => match set.find(Name8::query(name)) {
            Some(g) => cut_bytes(alloc, g as u64, path, bytes, out, errors),
            None => {
                // As above.
                let _ = write_no_name(path, name, errors);
                Err(End::Refused)
            }
        },
        Err(SetFault::Memory) => Err(End::Memory),
        Err(SetFault::File(_, why)) => {
            // As above.
            let _ = write_cut_line(path, &CutFault::NoWad(why), errors);
            Err(End::Refused)
        }
    }
}

/// Writes that no entry of a file has a name: `wadlens: PATH: NAME: no level of this name`.
pub fn write_no_name<E: Sink>(path: &[u8], name: &[u8], errors: &mut E) -> Result<(), IoFault>
    requires { (E.state errors.old).failed ≡ false }
    ensures { Writes (E.state errors.old) (E.state errors.new) (no_name_line path.now name.now) result }
{
    emit(errors, b"wadlens: ")?;
    write_path(path, errors)?;
    write_lacking(name, errors)
}

// `: NAME: no level of this name`
fn write_lacking<E: Sink>(name: &[u8], errors: &mut E) -> Result<(), IoFault>
    requires { (E.state errors.old).failed ≡ false }
    ensures { Writes (E.state errors.old) (E.state errors.new) (codes ": " ++ (shown_path name.now ++ codes ": no level of this name\n")) result }
{
    emit(errors, b": ")?;
    write_path(name, errors)?;
    emit(errors, b": no level of this name\n")
}

// Writes the level at an entry of a file's bytes, or reports why not.
fn cut_bytes<O: Write + Drop, E: Sink>(
    alloc: Global,
    entry: u64,
    path: &[u8],
    bytes: &[u8],
    out: &mut Output<O>,
    errors: &mut E,
) -> Result<Verdict, End>
    requires { AreSound (output_state O.contents out.old) (E.state errors.old) }
    ensures { CutsBytes bytes.now entry path.now O.contents out.old out.new (E.state errors.old) (E.state errors.new) result }
{
    match cut_level(alloc, bytes, entry, out) {
        Ok(()) => write_rest(Verdict::Clean, out),
        Err(CutFault::Write) => Err(output_end(Verdict::Clean, out)),
        Err(CutFault::Memory) => Err(End::Memory),
        Err(fault) => {
            // As above.
            let _ = write_cut_line(path, &fault, errors);
            cut_fault_end(&fault)
        }
    }
}

/// Writes why a level isn't cut out: `wadlens: PATH: TEXT`.
pub fn write_cut_line<E: Sink>(path: &[u8], fault: &CutFault, errors: &mut E) -> Result<(), IoFault>
    requires lump { HasLump fault.now }
    requires sound { (E.state errors.old).failed ≡ false }
    ensures { Writes (E.state errors.old) (E.state errors.new) (cut_fault_line path.now fault.now) result }
{
    emit(errors, b"wadlens: ")?;
    write_path(path, errors)?;
    write_cut_reason(fault, errors)
}

// `: TEXT`
fn write_cut_reason<E: Sink>(fault: &CutFault, errors: &mut E) -> Result<(), IoFault>
    requires lump { HasLump fault.now }
    requires sound { (E.state errors.old).failed ≡ false }
    ensures { Writes (E.state errors.old) (E.state errors.new) (codes ": " ++ cut_fault_text fault.now) result }
{
    emit(errors, b": ")?;
    write_cut_fault(*fault, errors)
}

// The end of a run that cut no level: a level that lacks a lump is faulty; every other fault is a refusal, except
// `Memory`.
fn cut_fault_end(fault: &CutFault) -> Result<Verdict, End>
    ensures { result ≡ cut_fault_end fault.now }
{
    match *fault {
        CutFault::Level(_, why) => uncut_end(why),
        CutFault::Memory => Err(End::Memory),
        CutFault::NoWad(_) | CutFault::NoLevel(_) | CutFault::Write => Err(End::Refused),
    }
}

fn uncut_end(why: Uncut) -> Result<Verdict, End>
    ensures { result ≡ uncut_end why }
{
    match why {
        Uncut::Incomplete(_) | Uncut::Outside(_) => Ok(Verdict::Faulty),
        Uncut::NoEndMap | Uncut::TooLarge => Err(End::Refused),
    }
}
