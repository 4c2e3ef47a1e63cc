//! The demo in a file listed.

ghost use Rattle.std.specs.Prelude.{◌≡◌, IfErr, IfOk};
ghost use Rattle.lens_reports.specs.Run.{AreSound};
ghost use Rattle.lens_calls.specs.Listed.{ListsBytes, ListsFile};
ghost use Rattle.lens_calls.specs.declared.asked.LensFault.TheVariants.{Full};

use crate::asked::LensFault;
use demo_engines::write_demo_refusal;
use demo_listings::write_listing;
use later_demos::LaterDemo;
use le_rec::Sink;
use lens_engines::{FileRefusal, Verdict};
use lens_reports::write_refusal;
use line_io::MAX_READ;

/// Lists the demo in a file, or reports why it has none.
pub fn list_file<W: Sink, E: Sink>(
    path: &[u8],
    bytes: &[u8],
    out: &mut W,
    errors: &mut E,
) -> Result<Verdict, LensFault>
    requires { AreSound (W.state out.old) (E.state errors.old) }
    ensures listed { IfOk result (ListsFile path.now bytes.now (W.state out.old) (W.state out.new) (E.state errors.old) (E.state errors.new)) }
    ensures full { IfErr result (λ fault. fault ≡ Full) }
{
    if bytes.len() as u64 > MAX_READ {
        return match write_refusal(path, FileRefusal::TooLarge, errors) {
            Ok(()) => Ok(Verdict::Unjudged),
            Err(_) => Err(LensFault::Full),
        };
    }
    list_bytes(path, bytes, out, errors)
}

// Lists the demo in a file's bytes, or reports why they hold none.
fn list_bytes<W: Sink, E: Sink>(
    path: &[u8],
    bytes: &[u8],
    out: &mut W,
    errors: &mut E,
) -> Result<Verdict, LensFault>
    requires { AreSound (W.state out.old) (E.state errors.old) }
    ensures listed { IfOk result (ListsBytes path.now bytes.now (W.state out.old) (W.state out.new) (E.state errors.old) (E.state errors.new)) }
    ensures full { IfErr result (λ fault. fault ≡ Full) }
{
    match LaterDemo::read(bytes) {
        Ok(demo) => match write_listing(&demo, out) {
            Ok(()) => Ok(Verdict::Clean),
            Err(_) => Err(LensFault::Full),
        },
        Err(fault) => match write_demo_refusal(path, fault, errors) {
            Ok(()) => Ok(Verdict::Unjudged),
            Err(_) => Err(LensFault::Full),
        },
    }
}
