//! The words of a command line, as the machine hands them on, and what they ask for.

use crate::mistake::tell_mistake;
use crate::unstarted::Unstarted;
use crate::words::{Task, read_words};
use std::rt::Env;
use std::{env, io};

// The refusal of a run with an argument that isn't UTF-8: the kit hands arguments on as text only.
const NOT_UTF_8: &str =
    "wadlens: a word isn't UTF-8, so the whole run is refused: hand such a file over as /dev/stdin <FILE";

/// The words that the program was started with, its name first. On Err it was told why there are none.
pub fn given_words<R: Env + Eprint + AllocGlobal>(rt: &R) -> Result<Vec<String>, Unstarted> {
    match env::args(rt) {
        Ok(words) => Ok(words.collect(rt.alloc())?),
        Err(e) if e.kind() == io::ErrorKind::OutOfMemory => Err(Unstarted::Memory),
        Err(_) => {
            // If standard error fails, the message is lost.
            let _ = rt.eprintln(NOT_UTF_8);
            Err(Unstarted::Refused)
        }
    }
}

/// What these words ask for, the program's name first. On Err it was told what is wrong, or the help or the version that they
/// ask for was printed.
pub fn task_of<'a, R: Print + Eprint + AllocGlobal>(
    rt: &R,
    words: &'a [String],
) -> Result<Task<'a>, Unstarted> {
    match read_words(rt.alloc(), words) {
        Ok(task) => Ok(task),
        Err(mistake) => Err(tell_mistake(rt, command_of(words), &mistake)),
    }
}

// The command's name among these words; empty where there is none.
fn command_of(words: &[String]) -> &str {
    match words.get(1) {
        Some(word) => word.as_str(),
        None => "",
    }
}
