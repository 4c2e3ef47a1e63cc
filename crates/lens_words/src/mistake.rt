//! Why arguments start no run, and how that is told.

use crate::unstarted::Unstarted;
use clap::Error;
use clap::error::ErrorKind;
use lens_args::usage;
use std::alloc::AllocError;
use std::fmt::Display;
use std::io;

/// Why arguments start no run: a mistake, or a request for the help or the version.
#[derive(Drop)]
pub enum Mistake {
    /// A text of the argument library: a mistake, the help or the version.
    Words(Error),
    /// A mistake that the library doesn't look for.
    Told(&'static str),
}

impl From<Error> for Mistake {
    fn from(error: Error) -> Mistake {
        Mistake::Words(error)
    }
}

impl From<AllocError> for Mistake {
    fn from(error: AllocError) -> Mistake {
        Mistake::Words(Error::from(error))
    }
}

/// Prints why no run is started: a mistake, the help or the version.
pub fn tell_mistake<R: Print + Eprint + AllocGlobal>(
    rt: &R,
    command: &str,
    mistake: &Mistake,
) -> Unstarted {
    match mistake {
        Mistake::Words(error) => tell_words(rt, command, error),
        Mistake::Told(text) => tell_with_usage(rt, command, format_args!("error: {text}\n")),
    }
}

// Prints the mistake, then the command's usage.
fn tell_with_usage<R: Eprint + AllocGlobal>(
    rt: &R,
    command: &str,
    mistaken: impl Display + Drop,
) -> Unstarted {
    let Ok(usage) = usage(rt.alloc(), command) else {
        return Unstarted::Memory;
    };
    // If standard error fails, the message is lost.
    let _ = rt.eprintln(format_args!("{mistaken}\n{}", usage.as_str()));
    Unstarted::Refused
}

// Prints the mistake in the arguments, or the help or the version that they ask for.
fn tell_words<R: Print + Eprint + AllocGlobal>(rt: &R, command: &str, error: &Error) -> Unstarted {
    match error.kind() {
        ErrorKind::OutOfMemory => Unstarted::Memory,
        // Their texts have no usage.
        ErrorKind::InvalidValue | ErrorKind::ValueValidation => {
            tell_with_usage(rt, command, format_args!("{error}"))
        }
        _ => match error.print(rt) {
            Ok(()) if !error.use_stderr() => Unstarted::Told,
            Err(e) if !error.use_stderr() && e.kind() != io::ErrorKind::BrokenPipe => {
                Unstarted::Output
            }
            Err(_) if !error.use_stderr() => Unstarted::Told,
            _ => Unstarted::Refused,
        },
    }
}
