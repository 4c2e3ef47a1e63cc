//! Reports on files over base files.

ghost use Rattle.std.specs.Prelude.{◌≡◌, ◌<◌, ◌≤◌, [], false, length, map, slice_index_or, IfErr, IfOk};
ghost use Rattle.lens_reports.specs.Run.{AreSound};
ghost use Rattle.lens_calls.specs.Told.{TellsAll, TellsOver, TellsRefused};
ghost use Rattle.lens_calls.specs.declared.asked.LensFault.TheVariants.{Full};

use crate::asked::LensFault;
use le_rec::Sink;
use lens_engines::{Base, Rules, Verdict};
use lens_reports::{
    BaseFault, HandOn, Held, ReadFault, ReportKind, Request, Unwatched, read_bases, tell_paths,
    wads_of, write_last, write_refusal, write_unlooked,
};
use std::alloc::Allocator;

/// Reads the base files, which come first, and reports on the others. If a base file is refused, it reports which.
pub fn tell_over<A: Allocator + Copy, W: HandOn, E: Sink>(
    alloc: A,
    word: ReportKind,
    rules: Rules,
    bases: usize,
    paths: &[&[u8]],
    files: &[&[u8]],
    out: &mut W,
    errors: &mut E,
) -> Result<Verdict, LensFault>
    requires few { bases < 64 }
    requires paths { bases ≤ length paths.now }
    requires files { bases ≤ length files.now }
    requires sound { AreSound (W.state out.old) (E.state errors.old) }
    ensures told { IfOk result (TellsOver word rules bases (map (λ path. path.now) paths.now) (map (λ file. file.now) files.now)
        (W.state out.old) (W.state out.new) (E.state errors.old) (E.state errors.new)) }
    ensures full { IfErr result (λ fault. fault ≡ Full) }
{
    let first = Held(&files[..bases]);
    let held = match read_bases(alloc, &first, &paths[..bases]) {
        Ok(held) => held,
        Err(refused) => return tell_refused(&paths[..bases], refused, errors),
    };
    let wads = wads_of(alloc, &held)?;
    let Some(base) = Base::of(&wads) else {
        unreachable!();
    };
    let asked = Request {
        word,
        judging: rules.over(&base),
    };
    tell_all(alloc, asked, &paths[bases..], &files[bases..], out, errors)
}

// Reports which base file is refused, and why.
fn tell_refused<E: Sink>(
    paths: &[&[u8]],
    first: BaseFault,
    errors: &mut E,
) -> Result<Verdict, LensFault>
    requires within { first.place < length paths.now }
    requires sound { (E.state errors.old).failed ≡ false }
    ensures told { IfOk result (TellsRefused (slice_index_or (map (λ path. path.now) paths.now) first.place []) first.fault
        (E.state errors.old) (E.state errors.new)) }
    ensures full { IfErr result (λ fault. fault ≡ Full) }
{
    match first.fault {
        ReadFault::Memory => Err(LensFault::Full),
        ReadFault::Refused(refusal) => match write_refusal(paths[first.place], refusal, errors) {
            Ok(()) => Ok(Verdict::Unjudged),
            Err(_) => Err(LensFault::Full),
        },
    }
}

// Reports on each file in order, then writes a check's totals and which warnings weren't looked for.
fn tell_all<A: Allocator + Copy, W: HandOn, E: Sink>(
    alloc: A,
    asked: Request<'_>,
    paths: &[&[u8]],
    files: &[&[u8]],
    out: &mut W,
    errors: &mut E,
) -> Result<Verdict, LensFault>
    requires { AreSound (W.state out.old) (E.state errors.old) }
    ensures told { IfOk result (TellsAll asked.entry (map (λ path. path.now) paths.now) (map (λ file. file.now) files.now)
        (W.state out.old) (W.state out.new) (E.state errors.old) (E.state errors.new)) }
    ensures full { IfErr result (λ fault. fault ≡ Full) }
{
    let told = tell_paths(
        alloc,
        &Held(files),
        asked,
        paths,
        out,
        errors,
        &mut Unwatched,
    );
    let Ok(tally) = told else {
        return Err(LensFault::Full);
    };
    if write_last(asked, paths.len() as u64, &tally.totals, out).is_err() {
        return Err(LensFault::Full);
    }
    match write_unlooked(tally.totals.unlisted, errors) {
        Ok(()) => Ok(tally.verdict),
        Err(_) => Err(LensFault::Full),
    }
}
