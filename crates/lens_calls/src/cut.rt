//! A level cut out of a file.

ghost use Rattle.std.specs.Prelude.{◌≡◌, IfErr, IfOk};
ghost use Rattle.lens_reports.specs.Run.{AreSound};
ghost use Rattle.lens_calls.specs.Cut.{CutsAsked, CutsBytes, CutsFile, CutsNamed, verdict_of_cut, verdict_of_uncut};
ghost use Rattle.lens_calls.specs.declared.asked.LensFault.TheVariants.{Full};

use crate::asked::LensFault;
use le_rec::{Name8, Sink};
use lens_engines::{CutFault, FileRefusal, Uncut, Verdict, cut_level};
use lens_reports::{CutAsked, write_cut_line, write_no_name, write_refusal};
use line_io::MAX_READ;
use std::alloc::Allocator;
use wad_dir::{Set, SetFault};

/// Writes a level of a file, or reports why not.
pub fn cut_file<A: Allocator + Copy, W: Sink, E: Sink>(
    alloc: A,
    asked: CutAsked<'_>,
    path: &[u8],
    bytes: &[u8],
    out: &mut W,
    errors: &mut E,
) -> Result<Verdict, LensFault>
    requires { AreSound (W.state out.old) (E.state errors.old) }
    ensures cut { IfOk result (CutsFile asked.entry path.now bytes.now (W.state out.old) (W.state out.new) (E.state errors.old) (E.state errors.new)) }
    ensures full { IfErr result (λ fault. fault ≡ Full) }
{
    if bytes.len() as u64 > MAX_READ {
        return match write_refusal(path, FileRefusal::TooLarge, errors) {
            Ok(()) => Ok(Verdict::Unjudged),
            Err(_) => Err(LensFault::Full),
        };
    }
    match asked {
        CutAsked::Entry(entry) => cut_bytes(alloc, entry, path, bytes, out, errors),
        CutAsked::Named(name) => cut_named(alloc, name, path, bytes, out, errors),
    }
}

// Writes the level that wins a name in a file's bytes, or reports why not.
fn cut_named<A: Allocator + Copy, W: Sink, E: Sink>(
    alloc: A,
    name: &[u8],
    path: &[u8],
    bytes: &[u8],
    out: &mut W,
    errors: &mut E,
) -> Result<Verdict, LensFault>
    requires { AreSound (W.state out.old) (E.state errors.old) }
    ensures cut { IfOk result (CutsNamed name.now path.now bytes.now (W.state out.old) (W.state out.new) (E.state errors.old) (E.state errors.new)) }
    ensures full { IfErr result (λ fault. fault ≡ Full) }
{
    match Set::one(alloc, bytes) {
        Ok(set) => match set.find(Name8::query(name)) {
            Some(g) => cut_bytes(alloc, g as u64, path, bytes, out, errors),
            None => match write_no_name(path, name, errors) {
                Ok(()) => Ok(Verdict::Unjudged),
                Err(_) => Err(LensFault::Full),
            },
        },
        Err(SetFault::Memory) => Err(LensFault::Full),
        Err(SetFault::File(_, why)) => {
            match write_cut_line(path, &CutFault::NoWad(why), errors) {
                Ok(()) => Ok(Verdict::Unjudged),
                Err(_) => Err(LensFault::Full),
            }
        }
    }
}

// Writes the level whose label is an entry of a file's bytes, or reports why not.
fn cut_bytes<A: Allocator + Copy, W: Sink, E: Sink>(
    alloc: A,
    entry: u64,
    path: &[u8],
    bytes: &[u8],
    out: &mut W,
    errors: &mut E,
) -> Result<Verdict, LensFault>
    requires { AreSound (W.state out.old) (E.state errors.old) }
    ensures cut { IfOk result (CutsBytes entry path.now bytes.now (W.state out.old) (W.state out.new) (E.state errors.old) (E.state errors.new)) }
    ensures full { IfErr result (λ fault. fault ≡ Full) }
{
    match cut_level(alloc, bytes, entry, out) {
        Ok(()) => Ok(Verdict::Clean),
        Err(CutFault::Memory | CutFault::Write) => Err(LensFault::Full),
        Err(fault) => match write_cut_line(path, &fault, errors) {
            Ok(()) => Ok(verdict_of_cut(&fault)),
            Err(_) => Err(LensFault::Full),
        },
    }
}

// The verdict where no level is cut out: `Faulty` if a lump isn't there or isn't inside the file, else `Unjudged`.
fn verdict_of_cut(fault: &CutFault) -> Verdict
    ensures { result ≡ verdict_of_cut fault.now }
{
    match *fault {
        CutFault::Level(_, why) => verdict_of_uncut(why),
        CutFault::NoWad(_) | CutFault::NoLevel(_) | CutFault::Memory | CutFault::Write => {
            Verdict::Unjudged
        }
    }
}

fn verdict_of_uncut(why: Uncut) -> Verdict
    ensures { result ≡ verdict_of_uncut why }
{
    match why {
        Uncut::Incomplete(_) | Uncut::Outside(_) => Verdict::Faulty,
        Uncut::NoEndMap | Uncut::TooLarge => Verdict::Unjudged,
    }
}
