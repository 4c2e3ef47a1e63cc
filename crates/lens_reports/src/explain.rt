//! The run of `explain`: what a code means, or the list of all codes, over any writer.

ghost use Rattle.std.specs.Prelude.{◌≡◌, Option, false};
ghost use Rattle.lens_engines.specs.declared.verdict.Verdict.TheVariants.{Clean};
ghost use Rattle.lens_reports.specs.Job.{TellsRest};
ghost use Rattle.lens_reports.specs.Output.{output_state};
ghost use Rattle.lens_texts.specs.Explain.{explained_text};

use crate::end::End;
use crate::output::Output;
use crate::run::{output_end, write_rest};
use lens_engines::Verdict;
use lens_texts::write_explained;
use level_codes::ReportCode;
use std::io::Write;

/// Writes what a code means, or the list of all codes. On Ok the buffer is empty.
pub fn run_explain<O: Write + Drop>(
    code: Option<ReportCode>,
    out: &mut Output<O>,
) -> Result<Verdict, End>
    requires { (output_state O.contents out.old).failed ≡ false }
    ensures { TellsRest O.contents (explained_text code) Clean out.old out.new result }
{
    match write_explained(code, out) {
        Ok(()) => write_rest(Verdict::Clean, out),
        Err(_) => Err(output_end(Verdict::Clean, out)),
    }
}
