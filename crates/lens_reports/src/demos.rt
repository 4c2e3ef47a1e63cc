//! The demos of a file. Each is listed, and standard error has why some aren't read.

ghost use Rattle.std.specs.Prelude.{◌≡◌, [], false, IfOk, IfErr, OnOk};
ghost use Rattle.lens_reports.specs.DemosTold.{LeavesDemos, TellsDemosOf, demos_tally, demos_verdict};
ghost use Rattle.lens_reports.specs.Run.{OnBytesErrors};

use crate::tell::{BytesFault, ReportSum, no_tally};
use demo_engines::{DemoQuestion, DemosFault, demos_file};
use le_rec::Sink;
use lens_engines::Verdict;
use lens_texts::{Form, HandOn, Watch};
use std::alloc::Allocator;

/// Reports on the demos of a file's bytes, in order. The message about one that isn't read comes after what was answered
/// before.
pub fn tell_demos<A: Allocator + Copy, W: HandOn, E: Sink, P: Watch>(
    alloc: A,
    form: Form,
    path: &[u8],
    bytes: &[u8],
    out: &mut W,
    errors: &mut E,
    watch: &mut P,
) -> Result<ReportSum, BytesFault>
    requires out { (W.state out.old).failed ≡ false }
    requires errors { (E.state errors.old).failed ≡ false }
    ensures told { IfOk result (TellsDemosOf form path.now bytes.now (W.state out.old) (W.state out.new)
        (E.state errors.old) (E.state errors.new)) }
    ensures out { OnOk result ((W.state out.new).failed ≡ false) }
    ensures errors { OnOk result ((E.state errors.new).failed ≡ false) }
    ensures left { IfErr result (LeavesDemos W.state E.state form path.now bytes.now out.old out.new errors.old errors.new) }
    ensures handed { OnBytesErrors result (W.held out.new ≡ []) }
{
    let question = DemoQuestion { path, form };
    match demos_file(alloc, &question, bytes, out, errors, watch) {
        Ok(all_read) => Ok(demos_tally(all_read)),
        Err(fault) => Err(BytesFault::from_demos(fault)),
    }
}

// The verdict, by whether all demos were read.
fn demos_verdict(all_read: bool) -> Verdict
    ensures { result ≡ demos_verdict all_read }
{
    if all_read {
        Verdict::Clean
    } else {
        Verdict::Unjudged
    }
}

fn demos_tally(all_read: bool) -> ReportSum
    ensures { result ≡ demos_tally all_read }
{
    ReportSum {
        verdict: demos_verdict(all_read),
        totals: no_tally().totals,
    }
}

impl BytesFault {
    ghost use Rattle.std.specs.Prelude.{◌≡◌};
    ghost use Rattle.lens_reports.specs.DemosTold.{fault_of_demos};

    // The fault of the engine that tells demos.
    fn from_demos(fault: DemosFault) -> BytesFault
        ensures { result ≡ fault_of_demos fault }
    {
        match fault {
            DemosFault::NoWad(why) => BytesFault::NoWad(why),
            DemosFault::Write(all_read) => BytesFault::Output(demos_verdict(all_read)),
            DemosFault::Errors => BytesFault::Errors,
            DemosFault::Memory => BytesFault::Memory,
        }
    }
}
