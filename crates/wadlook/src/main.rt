//! The program `wadlook`: it reads its arguments and its files, runs the command over them, and reports how that
//! ended.
#![tactic(auto)]

mod block_source;
mod closed_pipe;
mod files;
mod program;
mod refusal;

use closed_pipe::{Watched, is_of_closed_pipe};
use line_io::Disk;
use look_engines::RunFault;
use program::do_words;
use refusal::{ProgramRefusal, exit_status};
use std::cell::Cell;
use std::process::ExitCode;
use std::rt::{Env, Files};
use std::{env, io};

fn main(rt: HostRuntime) -> ExitCode {
    let closed = Cell::new(false);
    let outcome = run(&rt, &closed);
    if let Err(refusal) = &outcome {
        // Whoever closed the pipe wants no more. If standard error fails too, the message is lost.
        if !closed.get() {
            let _ = rt.eprintln(format_args!("refused: {refusal}"));
        }
    }
    ExitCode::from(exit_status(&outcome))
}

// Does what the arguments ask for. Without any it prints their form. `closed` is told if the output is a closed pipe.
fn run<R: Env + Files + Input + Print + AllocGlobal>(
    rt: &R,
    closed: &Cell<bool>,
) -> Result<bool, ProgramRefusal> {
    let words = read_words(rt)?;
    if words.is_empty() {
        return print_form(rt, closed);
    }
    let writer = Watched::new(io::writer(rt), closed);
    do_words(rt.alloc(), &words, &Disk(rt), rt.reader(), writer)
}

// Prints the form of the arguments.
fn print_form<R: Print>(rt: &R, closed: &Cell<bool>) -> Result<bool, ProgramRefusal> {
    match rt.println("wadlook CMD [NAME] FILE...") {
        Ok(()) => Ok(true),
        Err(error) => {
            closed.set(is_of_closed_pipe(&error));
            Err(ProgramRefusal::Run(RunFault::Write))
        }
    }
}

// The arguments after the program's name.
fn read_words<R: Env + AllocGlobal>(rt: &R) -> Result<Vec<String>, ProgramRefusal> {
    match env::args(rt) {
        Ok(words) => Ok(words.skip(1).collect(rt.alloc())?),
        Err(e) if e.kind() == io::ErrorKind::OutOfMemory => Err(ProgramRefusal::Run(
            RunFault::Memory,
        )),
        // An argument that isn't UTF-8 is no command, name or path here.
        Err(_) => Err(ProgramRefusal::Usage),
    }
}
