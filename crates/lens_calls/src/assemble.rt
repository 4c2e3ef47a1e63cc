//! A demo put together from its listing.

ghost use Rattle.std.specs.Prelude.{◌≡◌, false, IfErr, IfOk};
ghost use Rattle.demo_engines.specs.declared.assembly.Wanted.{Wanted};
ghost use Rattle.lens_reports.specs.Run.{AreSound};
ghost use Rattle.lens_calls.specs.Assembled.{AssemblesInput, AssemblesListing};
ghost use Rattle.lens_calls.specs.declared.asked.LensFault.TheVariants.{Full};

use crate::asked::LensFault;
use demo_engines::{AssembleFault, assemble};
use le_rec::Sink;
use lens_commands::write_wrong_line;
use lens_engines::{FileRefusal, Verdict};
use lens_reports::write_refusal;
use line_io::{MAX_READ, emit};
use std::alloc::Global;

/// Writes the demo of which the input is the listing, or reports which line is wrong.
pub fn assemble_input<W: Sink, E: Sink>(
    alloc: Global,
    input: &[u8],
    out: &mut W,
    errors: &mut E,
) -> Result<Verdict, LensFault>
    requires { AreSound (W.state out.old) (E.state errors.old) }
    ensures assembled { IfOk result (AssemblesInput input.now (W.state out.old) (W.state out.new) (E.state errors.old) (E.state errors.new)) }
    ensures full { IfErr result (λ fault. fault ≡ Full) }
{
    if input.len() as u64 > MAX_READ {
        return match write_refusal(b"standard input", FileRefusal::TooLarge, errors) {
            Ok(()) => Ok(Verdict::Unjudged),
            Err(_) => Err(LensFault::Full),
        };
    }
    assemble_listing(alloc, input, out, errors)
}

// Writes the demo of a listing, or reports which line is wrong.
fn assemble_listing<W: Sink, E: Sink>(
    alloc: Global,
    listing: &[u8],
    out: &mut W,
    errors: &mut E,
) -> Result<Verdict, LensFault>
    requires { AreSound (W.state out.old) (E.state errors.old) }
    ensures assembled { IfOk result (AssemblesListing listing.now (W.state out.old) (W.state out.new) (E.state errors.old) (E.state errors.new)) }
    ensures full { IfErr result (λ fault. fault ≡ Full) }
{
    match assemble(alloc, listing) {
        Ok(demo) => match emit(out, &demo) {
            Ok(()) => Ok(Verdict::Clean),
            Err(_) => Err(LensFault::Full),
        },
        Err(AssembleFault::Memory) => Err(LensFault::Full),
        Err(AssembleFault::Line(number, wanted)) => {
            match write_wrong_line(number, wanted, errors) {
                Ok(()) => Ok(Verdict::Unjudged),
                Err(_) => Err(LensFault::Full),
            }
        }
    }
}
