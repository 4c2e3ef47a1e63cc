//! What codes mean.

ghost use Rattle.std.specs.Prelude.{◌≡◌, false, IfErr, IfOk};
ghost use Rattle.lens_calls.specs.Explained.{Explains};
ghost use Rattle.lens_calls.specs.declared.asked.LensFault.TheVariants.{Full};

use crate::asked::LensFault;
use le_rec::Sink;
use lens_engines::Verdict;
use lens_texts::write_explained;
use level_codes::ReportCode;

/// Writes what a code means, or the list of all codes.
pub fn explain<W: Sink>(code: Option<ReportCode>, out: &mut W) -> Result<Verdict, LensFault>
    requires { (W.state out.old).failed ≡ false }
    ensures explained { IfOk result (Explains code (W.state out.old) (W.state out.new)) }
    ensures full { IfErr result (λ fault. fault ≡ Full) }
{
    match write_explained(code, out) {
        Ok(()) => Ok(Verdict::Clean),
        Err(_) => Err(LensFault::Full),
    }
}
