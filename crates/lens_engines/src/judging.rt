//! How the levels of a file are judged.

use crate::base::Base;
use level_codes::CodeSet;
use map_level::Reading;

/// Whether warnings are looked for.
#[derive(Clone, Copy, Debug, PartialEq, Eq)]
pub enum Warnings {
    /// They aren't looked for.
    Unasked,
    /// They are shown and counted.
    Told,
}

/// How levels are judged: the reading of their numbers, whether warnings are looked for, which codes are ignored, and which are
/// as grave as a fault.
#[derive(Clone, Copy)]
pub struct Rules {
    pub reading: Reading,
    pub warnings: Warnings,
    /// Their findings and warnings are neither shown nor counted. A fault is never ignored.
    pub ignored: CodeSet,
    /// A finding or a warning of these that isn't ignored is as grave as a fault.
    pub failing: CodeSet,
    /// One at which the released game ends is, too.
    pub game_ends: bool,
}

impl Rules {
    ghost use Rattle.lens_engines.specs.Rules.{IsOver};

    /// These rules with the base files.
    pub fn over<'b>(self, base: &'b Base<'b>) -> Judging<'b>
        ensures { IsOver self base.entry.now result }
    {
        Judging {
            reading: self.reading,
            warnings: self.warnings,
            ignored: self.ignored,
            failing: self.failing,
            game_ends: self.game_ends,
            base,
        }
    }
}

/// How the levels of a file are judged: the rules, and the base files. Only W9, W10, W22 and W25 look at base files.
#[derive(Clone, Copy)]
pub struct Judging<'b> {
    pub reading: Reading,
    pub warnings: Warnings,
    /// Their findings and warnings are neither shown nor counted. A fault is never ignored.
    pub ignored: CodeSet,
    /// A finding or a warning of these that isn't ignored is as grave as a fault.
    pub failing: CodeSet,
    /// One at which the released game ends is, too.
    pub game_ends: bool,
    pub base: &'b Base<'b>,
}
