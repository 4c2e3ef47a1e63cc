//! The run of `assemble`: a demo from its listing, over any reader and writers.

ghost use Rattle.std.specs.Prelude.{◌≡◌, ◌≤◌, ◌++◌, [], codes, decimal, false, length};
ghost use Rattle.demo_engines.specs.declared.assembly.Wanted.TheVariants as wanted;
ghost use Rattle.lens_commands.specs.AssembleJob.{AssemblesBytes, RunsAssemble, line_text, wanted_text};
ghost use Rattle.lens_reports.specs.Job.{TellsRest};
ghost use Rattle.lens_reports.specs.Output.{output_state};
ghost use Rattle.lens_reports.specs.Run.{AreSound};
ghost use Rattle.line_io.specs.Writes.{Writes};
ghost use Rattle.lens_engines.specs.declared.verdict.Verdict.TheVariants.{Clean};

use demo_engines::{AssembleFault, Wanted, assemble};
use le_rec::Sink;
use lens_engines::Verdict;
use lens_reports::{End, Output, ReadFault, output_end, read_input, write_refusal, write_rest};
use line_io::{IoFault, TextLine, emit};
use std::alloc::Global;
use std::io::{Read, Write};

/// Writes the demo of which the input is the listing, once all of it was read, or reports which line is wrong. On Ok the buffer
/// is empty.
pub fn run_assemble<I: Read + Drop, O: Write + Drop, E: Sink>(
    alloc: Global,
    reader: I,
    out: &mut Output<O>,
    errors: &mut E,
) -> Result<Verdict, End>
    requires { AreSound (output_state O.contents out.old) (E.state errors.old) }
    ensures { RunsAssemble (I.remaining reader) O.contents out.old out.new (E.state errors.old) (E.state errors.new) result }
{
    match read_input(Vec::new(alloc), reader) {
        Ok(listing) => assemble_bytes(alloc, &listing, out, errors),
        Err(ReadFault::Memory) => Err(End::Memory),
        Err(ReadFault::Refused(refusal)) => {
            // If standard error fails, the message is lost.
            let _ = write_refusal(b"standard input", refusal, errors);
            Err(End::Refused)
        }
    }
}

// Writes the demo of a listing, or reports which line is wrong.
fn assemble_bytes<O: Write + Drop, E: Sink>(
    alloc: Global,
    listing: &[u8],
    out: &mut Output<O>,
    errors: &mut E,
) -> Result<Verdict, End>
    requires { AreSound (output_state O.contents out.old) (E.state errors.old) }
    ensures { AssemblesBytes listing.now O.contents out.old out.new (E.state errors.old) (E.state errors.new) result }
{
    match assemble(alloc, listing) {
        Ok(demo) => write_demo(&demo, out),
        Err(AssembleFault::Memory) => Err(End::Memory),
        Err(AssembleFault::Line(number, wanted)) => {
            // As above.
            let _ = write_wrong_line(number, wanted, errors);
            Err(End::Refused)
        }
    }
}

// Writes the bytes of a demo.
fn write_demo<O: Write + Drop>(bytes: &[u8], out: &mut Output<O>) -> Result<Verdict, End>
    requires { (output_state O.contents out.old).failed ≡ false }
    ensures { TellsRest O.contents bytes.now Clean out.old out.new result }
{
    match emit(out, bytes) {
        Ok(()) => write_rest(Verdict::Clean, out),
        Err(_) => Err(output_end(Verdict::Clean, out)),
    }
}

/// Writes which line is wrong: `wadlens: standard input: line 5 is no line of a listing: a demo's header is wanted`.
pub fn write_wrong_line<E: Sink>(number: u64, wanted: Wanted, errors: &mut E) -> Result<(), IoFault>
    requires { (E.state errors.old).failed ≡ false }
    ensures { Writes (E.state errors.old) (E.state errors.new) (line_text number wanted) result }
{
    let mut front = TextLine::new();
    prepend_wrong_line(&mut front, number);
    let mut end = TextLine::new();
    end.prepend_bytes(b"\n");
    prepend_wanted(&mut end, wanted);
    emit(errors, front.as_bytes())?;
    emit(errors, end.as_bytes())
}

fn prepend_wrong_line(line: &mut TextLine, number: u64)
    requires { line.old ≡ [] }
    ensures { line.new ≡ codes "wadlens: standard input: line " ++ (decimal number ++ codes " is no line of a listing: ") }
{
    line.prepend_bytes(b" is no line of a listing: ");
    line.prepend_natural(number);
    line.prepend_bytes(b"wadlens: standard input: line ");
}

// Puts what is wanted before the line.
fn prepend_wanted(line: &mut TextLine, wanted: Wanted)
    requires { length line.old ≤ 1 }
    ensures { line.new ≡ wanted_text wanted ++ line.old }
{
    match wanted {
        Wanted::LineEnd => line.prepend_bytes(b"the last line has no end"),
        Wanted::Header => line.prepend_bytes(b"a demo's header is wanted"),
        Wanted::Nothing => line.prepend_bytes(b"nothing more is wanted"),
        Wanted::Totals(tics, odd) => prepend_totals(line, tics, odd),
        Wanted::TicCommand(tic, player) => prepend_tic_command(line, tic, player),
    }
}

// `the totals are tics 3 odd 0 after 0`
fn prepend_totals(line: &mut TextLine, tics: u64, odd: u64)
    requires { length line.old ≤ 1 }
    ensures { line.new ≡ wanted_text (wanted.Totals tics odd) ++ line.old }
{
    line.prepend_bytes(b" after 0");
    line.prepend_natural(odd);
    line.prepend_bytes(b" odd ");
    line.prepend_natural(tics);
    line.prepend_bytes(b"the totals are tics ");
}

// `tic 3 player 1 or the totals are wanted`
fn prepend_tic_command(line: &mut TextLine, tic: u64, player: u8)
    requires { length line.old ≤ 1 }
    ensures { line.new ≡ wanted_text (wanted.TicCommand tic player) ++ line.old }
{
    line.prepend_bytes(b" or the totals are wanted");
    line.prepend_small(player);
    line.prepend_bytes(b" player ");
    line.prepend_natural(tic);
    line.prepend_bytes(b"tic ");
}
