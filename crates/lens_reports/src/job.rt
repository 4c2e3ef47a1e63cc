//! What a run is asked.

ghost use Rattle.lens_reports.specs.Job.{IsAsked};

use crate::bases::BasePaths;
use crate::tell::{ReportKind, Request};
use lens_engines::{Base, Rules};

/// What is asked of which files.
#[derive(Drop)]
pub struct ReportJob<'a> {
    pub word: ReportKind,
    /// How levels are judged. Demos ignore it.
    pub rules: Rules,
    /// The paths of the base files.
    pub bases: BasePaths<'a>,
    /// The paths of the words, in order.
    pub files: Vec<&'a str>,
    /// The path of a list of more, `-` for standard input.
    pub list: Option<&'a str>,
    /// The byte that ends a path of the list.
    pub list_end: u8,
}

impl ReportJob<'_> {
    ghost use Rattle.std.specs.Prelude.{◌≡◌};
    ghost use Rattle.lens_reports.specs.Job.{list_name};

    /// What is asked of each file, over the base files.
    pub fn over<'b>(&self, base: &'b Base<'b>) -> Request<'b>
        ensures { IsAsked self.now base.entry.now result }
    {
        Request {
            word: self.word,
            judging: self.rules.over(base),
        }
    }

    /// The list as messages name it.
    pub fn list_name(&self) -> &[u8]
        ensures { result.now ≡ list_name self.now }
    {
        match self.list {
            None | Some("-") => b"standard input",
            Some(path) => path.as_bytes(),
        }
    }
}
