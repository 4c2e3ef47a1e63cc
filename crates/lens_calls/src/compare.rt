//! The demos of two files compared.

ghost use Rattle.std.specs.Prelude.{◌≡◌, false, IfErr, IfOk};
ghost use Rattle.lens_reports.specs.Run.{AreSound};
ghost use Rattle.lens_calls.specs.Compared.{ComparesDemos, ComparesFiles, TellsNone};
ghost use Rattle.lens_calls.specs.declared.asked.LensFault.TheVariants.{Full};

use crate::asked::LensFault;
use crate::file_demo::{demo_in, tell_file};
use demo_listings::{Compared, compare_demos};
use later_demos::LaterDemo;
use le_rec::Sink;
use lens_engines::Verdict;

/// Writes where the demos of two files first differ, or nothing if all that is compared is the same. Reports why a file has none.
pub fn compare_files<W: Sink, E: Sink>(
    what: Compared,
    path_a: &[u8],
    a: &[u8],
    path_b: &[u8],
    b: &[u8],
    out: &mut W,
    errors: &mut E,
) -> Result<Verdict, LensFault>
    requires { AreSound (W.state out.old) (E.state errors.old) }
    ensures compared { IfOk result (ComparesFiles what path_a.now a.now path_b.now b.now (W.state out.old) (W.state out.new)
        (E.state errors.old) (E.state errors.new)) }
    ensures full { IfErr result (λ fault. fault ≡ Full) }
{
    let Some(demo_a) = demo_in(a) else {
        return tell_none(path_a, a, path_b, b, errors);
    };
    let Some(demo_b) = demo_in(b) else {
        return tell_none(path_a, a, path_b, b, errors);
    };
    compare_both(what, &demo_a, &demo_b, out)
}

// Writes where demos differ, where they do.
fn compare_both<W: Sink>(
    what: Compared,
    a: &LaterDemo<'_>,
    b: &LaterDemo<'_>,
    out: &mut W,
) -> Result<Verdict, LensFault>
    requires { (W.state out.old).failed ≡ false }
    ensures compared { IfOk result (ComparesDemos what a.now b.now (W.state out.old) (W.state out.new)) }
    ensures full { IfErr result (λ fault. fault ≡ Full) }
{
    match compare_demos(what, a, b, out) {
        Ok(true) => Ok(Verdict::Clean),
        Ok(false) => Ok(Verdict::Faulty),
        Err(_) => Err(LensFault::Full),
    }
}

// Reports why a file has no demo, for each of two that has none.
fn tell_none<E: Sink>(
    path_a: &[u8],
    a: &[u8],
    path_b: &[u8],
    b: &[u8],
    errors: &mut E,
) -> Result<Verdict, LensFault>
    requires { (E.state errors.old).failed ≡ false }
    ensures told { IfOk result (TellsNone path_a.now a.now path_b.now b.now (E.state errors.old) (E.state errors.new)) }
    ensures full { IfErr result (λ fault. fault ≡ Full) }
{
    if tell_file(path_a, a, errors).is_err() {
        return Err(LensFault::Full);
    }
    match tell_file(path_b, b, errors) {
        Ok(()) => Ok(Verdict::Unjudged),
        Err(_) => Err(LensFault::Full),
    }
}
