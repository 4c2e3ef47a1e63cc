//! The command line: the program with all its commands, and its usage.

use crate::command_rows::{command_named, commands};
use clap::Command;
use std::alloc::{AllocError, Global};

/// The program with all its commands. No clause speaks of what `clap` keeps of them: the cases of `tests/wadlens` show that.
pub fn program<'a>(alloc: Global) -> Result<Command<'a>, AllocError> {
    let commands = commands(alloc)?;
    Command::new(alloc, "wadlens")
        .version("0.1.0")
        .about("Looks over all levels of Doom WAD files")
        .subcommand_required(true)
        .disable_help_subcommand(true)
        .subcommands(commands)
}

/// The usage of a command that takes values, and of the program for any other name. It goes with a mistake whose text lacks
/// it.
pub fn usage(alloc: Global, command: &str) -> Result<String, AllocError> {
    match shown(command) {
        Some(shown) => command_named(alloc, command)?
            .bin_name(shown)?
            .render_usage(),
        None => program(alloc)?.render_usage(),
    }
}

// The command of this name as its usage shows it, if it takes values.
fn shown(command: &str) -> Option<&'static str> {
    match command {
        "check" => Some("wadlens check"),
        "survey" => Some("wadlens survey"),
        "demos" => Some("wadlens demos"),
        "explain" => Some("wadlens explain"),
        "picture" => Some("wadlens picture"),
        "cut" => Some("wadlens cut"),
        "atlas" => Some("wadlens atlas"),
        _ => None,
    }
}
