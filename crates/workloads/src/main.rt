//! Workloads for measuring: jobs that users wait for, done by the libraries on inputs that a seed makes or varies.
//!
//! `JOB SEED ROUNDS [FILE]` does so many rounds of a job, and prints one digest of all that was written.
#![tactic(auto)]

mod digest;
mod fault;
mod inputs;
mod jobs;
mod random;
mod varied;

ghost use Rattle.std.specs.Prelude.{◌≡◌, ◌≤◌, IfOk, vec_len};

use digest::Digest;
use fault::Fault;
use jobs::{do_round, job_named};
use le_rec::FromRead;
use look_engines::{MAX_READ, read_all};
use random::Random;
use std::env;
use std::fs::File;
use std::process::ExitCode;
use std::rt::{Env, Files};

fn main(rt: HostRuntime) -> ExitCode {
    match run(&rt) {
        Ok(digest) => {
            let told = rt.println(format_args!("{} of {} bytes", digest.hash(), digest.count()));
            if told.is_ok() {
                ExitCode::SUCCESS
            } else {
                ExitCode::FAILURE
            }
        }
        Err(fault) => {
            // If standard error fails too, the message is lost.
            let _ = rt.eprintln(format_args!("workloads: {fault:?}"));
            ExitCode::FAILURE
        }
    }
}

// Does what the words ask for.
fn run<R: Env + Files + AllocGlobal>(rt: &R) -> Result<Digest, Fault> {
    let words = words_of(rt)?;
    let (job, seed, rounds, paths) = match words.as_slice() {
        [_, job, seed, rounds, paths @ ..] => (job, seed, rounds, paths),
        _ => return Err(Fault::Words),
    };
    let (Some(job), Ok(seed), Ok(rounds)) = (
        job_named(job.as_str()),
        seed.as_str().parse::<u64>(),
        rounds.as_str().parse::<u32>(),
    ) else {
        return Err(Fault::Words);
    };
    let mut files = Vec::new(rt.alloc());
    if let [path] = paths {
        let Ok(()) = files.push(read_file(rt, path.as_str())?) else {
            return Err(Fault::Call);
        };
    }
    let mut random = Random::new(seed);
    let mut digest = Digest::new();
    for _round in 0..rounds {
        do_round(rt.alloc(), job, &files, &mut random, &mut digest)?;
    }
    Ok(digest)
}

// The program's words, its name first.
fn words_of<R: Env + AllocGlobal>(rt: &R) -> Result<Vec<String>, Fault> {
    match env::args(rt) {
        Ok(words) => Ok(words.collect(rt.alloc())?),
        Err(_) => Err(Fault::Words),
    }
}

// Reads a file to its end.
fn read_file<R: Files + AllocGlobal>(rt: &R, path: &str) -> Result<Vec<u8>, Fault> {
    match File::open(rt, path) {
        Ok(file) => Ok(read_all(rt.alloc(), &mut FromRead::new(file), MAX_READ)?),
        Err(_) => Err(Fault::File),
    }
}
