//! The run of `listing`: what the demo of a file holds, over any files and writers.

ghost use Rattle.std.specs.Prelude.{◌≡◌, [], false, Err};
ghost use Rattle.demo_listings.specs.Listing.{listing};
ghost use Rattle.lens_commands.specs.ListingJob.{RunsListing, ToldOne};
ghost use Rattle.lens_reports.specs.Job.{TellsRest};
ghost use Rattle.lens_reports.specs.Output.{output_state};
ghost use Rattle.lens_reports.specs.Run.{AreSound};
ghost use Rattle.lens_reports.specs.declared.end.End.TheVariants as end;
ghost use Rattle.lens_engines.specs.declared.verdict.Verdict.TheVariants.{Clean};

use crate::given::{Given, read_given, write_given};
use demo_listings::write_listing;
use later_demos::LaterDemo;
use le_rec::Sink;
use lens_engines::Verdict;
use lens_reports::{End, Output, output_end, write_rest};
use line_io::Storage;
use std::alloc::Global;
use std::io::Write;

/// Writes the listing of the demo in a file. If the file isn't read or holds no demo, the reason is reported, and nothing is
/// listed. On Ok the buffer is empty.
pub fn run_listing<S: Storage, O: Write + Drop, E: Sink>(
    alloc: Global,
    path: &[u8],
    storage: &S,
    out: &mut Output<O>,
    errors: &mut E,
) -> Result<Verdict, End>
    requires { AreSound (output_state O.contents out.old) (E.state errors.old) }
    ensures { RunsListing (S.held storage.now path.now) path.now O.contents out.old out.new (E.state errors.old) (E.state errors.new) result }
{
    let given = read_given(alloc, storage, path)?;
    let Some(demo) = given.demo() else {
        return refuse(path, &given, errors);
    };
    list_demo(&demo, out)
}

// Reports why a file holds no demo.
fn refuse<E: Sink>(path: &[u8], given: &Given, errors: &mut E) -> Result<Verdict, End>
    requires { (E.state errors.old).failed ≡ false }
    ensures ended { result ≡ Err end.Refused }
    ensures told { ToldOne path.now given.now (E.state errors.old) (E.state errors.new) }
{
    // If standard error fails, the message is lost.
    let _ = write_given(path, given, errors);
    Err(End::Refused)
}

fn list_demo<O: Write + Drop>(demo: &LaterDemo<'_>, out: &mut Output<O>) -> Result<Verdict, End>
    requires { (output_state O.contents out.old).failed ≡ false }
    ensures { TellsRest O.contents (listing demo.now) Clean out.old out.new result }
{
    match write_listing(demo, out) {
        Ok(()) => write_rest(Verdict::Clean, out),
        Err(_) => Err(output_end(Verdict::Clean, out)),
    }
}
