//! An argument of a command, as a row of a table.

use clap::{Arg, ArgAction, value_parser};
use std::alloc::{AllocError, Global};

/// An argument of a command.
#[derive(Clone, Copy)]
pub struct ArgRow {
    /// What it is read back by. The name of an option is `--` and this.
    pub id: &'static str,
    /// What help calls its value. A flag has none.
    pub value: Option<&'static str>,
    pub takes: Takes,
    pub bound: Bound,
    pub help: &'static str,
}

/// What an argument takes.
#[derive(Clone, Copy)]
pub enum Takes {
    /// A flag takes nothing.
    Flag,
    /// An option takes a text.
    Text,
    /// An option takes a text that may begin with a hyphen.
    Hyphened,
    /// An option that may be given again takes a text each time.
    Texts,
    /// An option takes a number.
    Number,
    /// An option takes a number of cells.
    Cells,
    /// An option that may be given again takes words for notes and warnings, with commas between them.
    Codes,
    /// A positional argument takes one text.
    Place,
    /// A positional argument takes all texts that are left.
    Places,
}

/// How an argument is bound to be given, and to others.
#[derive(Clone, Copy)]
pub enum Bound {
    /// It may be left out.
    Free,
    /// It is required.
    Required,
    /// It is required unless this one is given.
    Unless(&'static str),
    /// It requires this one.
    With(&'static str),
    /// It is refused beside this one.
    Without(&'static str),
}

impl ArgRow {
    /// The argument. No clause speaks of what `clap` keeps of it: the cases of `tests/wadlens` show that.
    pub fn arg<'a>(&self, alloc: Global) -> Result<Arg<'a>, AllocError> {
        bind(self.taking(self.named(alloc)), self.bound)
    }

    // The argument with its name and its help.
    fn named<'a>(&self, alloc: Global) -> Arg<'a> {
        let arg = Arg::new(alloc, self.id).help(self.help);
        match self.value {
            Some(value) => arg.value_name(value),
            None => arg,
        }
    }

    // This argument with what it takes.
    fn taking<'a>(&self, arg: Arg<'a>) -> Arg<'a> {
        match self.takes {
            Takes::Place => arg,
            Takes::Places => arg.action(ArgAction::Append).num_args(1..),
            _ => as_option(arg.long(self.id), self.takes),
        }
    }
}

// This option with what it takes.
fn as_option<'a>(arg: Arg<'a>, takes: Takes) -> Arg<'a> {
    match takes {
        Takes::Flag => arg.action(ArgAction::SetTrue),
        Takes::Hyphened => arg.allow_hyphen_values(true),
        Takes::Texts => arg.action(ArgAction::Append),
        Takes::Number => arg.value_parser(value_parser!(u64)),
        Takes::Cells => arg.value_parser(value_parser!(u32).range(1..=1024)),
        Takes::Codes => arg.action(ArgAction::Append).value_delimiter(','),
        _ => arg,
    }
}

// This argument, bound so.
fn bind<'a>(arg: Arg<'a>, bound: Bound) -> Result<Arg<'a>, AllocError> {
    match bound {
        Bound::Free => Ok(arg),
        Bound::Required => Ok(arg.required(true)),
        Bound::Unless(id) => arg.required_unless_present(id),
        Bound::With(id) => arg.requires_arg(id),
        Bound::Without(id) => arg.conflicts_with(id),
    }
}
