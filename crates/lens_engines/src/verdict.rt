//! The verdict on a file, and why there is none.

use thiserror::Error;
use wad_dir::WadFault;

/// The verdict on a file, or on one of its levels.
#[derive(Clone, Copy, Debug, PartialEq, Eq)]
pub enum Verdict {
    /// All levels were judged, and none has a fault.
    Clean,
    /// A level is in a format that isn't judged.
    Unjudged,
    /// A level has a fault or what is as grave, a lump of it isn't there or isn't inside the file, or its nodes are broken. It goes
    /// before `Unjudged`.
    Faulty,
}

impl Verdict {
    ghost use Rattle.std.specs.Prelude.{◌≡◌};
    ghost use Rattle.lens_engines.specs.Survey.{graver};

    /// The graver of two verdicts.
    pub fn graver(self, other: Verdict) -> Verdict
        ensures { result ≡ graver self other }
    {
        match (self, other) {
            (Verdict::Faulty, _) | (_, Verdict::Faulty) => Verdict::Faulty,
            (Verdict::Unjudged, _) | (_, Verdict::Unjudged) => Verdict::Unjudged,
            (Verdict::Clean, Verdict::Clean) => Verdict::Clean,
        }
    }
}

/// Why going over a file stopped.
#[derive(Clone, Copy, Debug, PartialEq, Eq, Error)]
pub enum LevelsFault {
    /// The file's bytes have no directory. Nothing was written.
    #[error("{0}")]
    NoWad(WadFault),
    /// The output failed. The gravest of what was found up to there, also of the level whose text was being written.
    #[error("the output can't be written")]
    Write(Verdict),
    /// A growth was refused.
    #[error("no memory left")]
    Memory,
}

impl LevelsFault {
    ghost use Rattle.std.specs.Prelude.{◌≡◌};
    ghost use Rattle.lens_engines.specs.Survey.{fault_after};

    /// The same fault, after levels with this verdict.
    pub(crate) fn after(self, before: Verdict) -> LevelsFault
        ensures { result ≡ fault_after before self }
    {
        match self {
            LevelsFault::Write(found) => LevelsFault::Write(before.graver(found)),
            LevelsFault::NoWad(_) | LevelsFault::Memory => self,
        }
    }
}
