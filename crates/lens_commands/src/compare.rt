//! The run of `compare`: where the demos of two files first differ, over any files and writers.

ghost use Rattle.std.specs.Prelude.{◌≡◌, ◌⊎◌, [], false, Err};
ghost use Rattle.demo_listings.specs.Differences.{AreSame, Differs};
ghost use Rattle.lens_commands.specs.CompareJob.{RunsCompare, ToldBoth, WritesBoth};
ghost use Rattle.lens_reports.specs.Job.{TellsRest};
ghost use Rattle.lens_reports.specs.Output.{output_state};
ghost use Rattle.lens_reports.specs.Run.{AreSound};
ghost use Rattle.lens_reports.specs.declared.end.End.TheVariants as end;
ghost use Rattle.lens_engines.specs.declared.verdict.Verdict.TheVariants.{Clean, Faulty};

use crate::given::{Given, read_given, write_given};
use demo_listings::{Compared, compare_demos};
use later_demos::LaterDemo;
use later_demos::laws::read_or_refused;
use le_rec::Sink;
use lens_engines::Verdict;
use lens_reports::{End, Output, output_end, write_rest};
use line_io::{IoFault, Storage};
use std::alloc::Global;
use std::io::Write;

/// Writes where the demos of two files first differ, in one line, or nothing if all that is compared is the same. If a file isn't
/// read or holds no demo, the reason is reported for each such file. On Ok the buffer is empty.
pub fn run_compare<S: Storage, O: Write + Drop, E: Sink>(
    alloc: Global,
    what: Compared,
    path_a: &[u8],
    path_b: &[u8],
    storage: &S,
    out: &mut Output<O>,
    errors: &mut E,
) -> Result<Verdict, End>
    requires { AreSound (output_state O.contents out.old) (E.state errors.old) }
    ensures { RunsCompare what (S.held storage.now path_a.now) (S.held storage.now path_b.now) path_a.now path_b.now O.contents
        out.old out.new (E.state errors.old) (E.state errors.new) result }
{
    let a = read_given(alloc, storage, path_a)?;
    let b = read_given(alloc, storage, path_b)?;
    let Some(demo_a) = a.demo() else {
        return refuse(path_a, &a, path_b, &b, errors);
    };
    let Some(demo_b) = b.demo() else {
        return refuse(path_a, &a, path_b, &b, errors);
    };
    write_difference(what, &demo_a, &demo_b, out)
}

// Reports why a file holds no demo, for each of the two that holds none.
fn refuse<E: Sink>(
    path_a: &[u8],
    a: &Given,
    path_b: &[u8],
    b: &Given,
    errors: &mut E,
) -> Result<Verdict, End>
    requires { (E.state errors.old).failed ≡ false }
    ensures ended { result ≡ Err end.Refused }
    ensures told { ToldBoth path_a.now path_b.now a.now b.now (E.state errors.old) (E.state errors.new) }
{
    // If standard error fails, the message is lost.
    let _ = write_both(path_a, a, path_b, b, errors);
    Err(End::Refused)
}

// The lines of both files.
fn write_both<E: Sink>(
    path_a: &[u8],
    a: &Given,
    path_b: &[u8],
    b: &Given,
    errors: &mut E,
) -> Result<(), IoFault>
    requires { (E.state errors.old).failed ≡ false }
    ensures { WritesBoth path_a.now path_b.now a.now b.now (E.state errors.old) (E.state errors.new) result }
{
    read_or_refused();
    write_given(path_a, a, errors)?;
    write_given(path_b, b, errors)
}

// Writes where demos differ, where they do.
fn write_difference<O: Write + Drop>(
    what: Compared,
    a: &LaterDemo<'_>,
    b: &LaterDemo<'_>,
    out: &mut Output<O>,
) -> Result<Verdict, End>
    requires { (output_state O.contents out.old).failed ≡ false }
    ensures { (AreSame what a.now b.now × TellsRest O.contents [] Clean out.old out.new result)
        ⊎ ((text : _) × Differs what a.now b.now text × TellsRest O.contents text Faulty out.old out.new result) }
{
    match compare_demos(what, a, b, out) {
        Ok(true) => write_rest(Verdict::Clean, out),
        Ok(false) => write_rest(Verdict::Faulty, out),
        Err(_) => Err(output_end(Verdict::Faulty, out)),
    }
}
