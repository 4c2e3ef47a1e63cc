//! How a run ends, and the status with which the program ends.
ghost use Rattle.std.specs.Prelude.{◌≡◌};
ghost use Rattle.lens_reports.specs.Status.{exit_status_of, status_of};

use lens_engines::Verdict;
use std::alloc::AllocError;

/// Why a run didn't come to its end.
#[derive(Clone, Copy, Debug, PartialEq, Eq)]
pub enum End {
    /// A growth was refused.
    Memory,
    /// The reader of standard output has gone. The verdict up to there.
    Closed(Verdict),
    /// Standard output can't be written.
    Output,
    /// Standard error can't be written.
    Errors,
    /// The words are wrong, or what they ask for is refused: a list, a file, a listing, a name, a folder. This was
    /// reported.
    Refused,
    /// The words ask for the help or the version, which was printed.
    Told,
}

impl From<AllocError> for End {
    ghost use Rattle.lens_reports.specs.declared.end.End.TheVariants.{Memory};

    ghost from_gives = { λ _ end. end ≡ Memory };

    fn from(_error: AllocError) -> End {
        End::Memory
    }
}

impl End {
    ghost use Rattle.std.specs.Prelude.{◌≡◌};
    ghost use Rattle.std.specs.Option.{option_map};
    ghost use Rattle.lens_reports.specs.Status.{end_message};

    /// The message for standard error, if it wasn't printed before.
    pub fn message(self) -> Option<&'static str>
        ensures { option_map (λ text. text.now) result ≡ end_message self }
    {
        match self {
            End::Memory => Some("no memory left"),
            End::Output => Some("standard output can't be written"),
            End::Closed(_) | End::Errors | End::Refused | End::Told => None,
        }
    }
}

/// The status with which the program ends.
pub fn exit_status(ended: &Result<Verdict, End>) -> u8
    ensures { result ≡ exit_status_of ended.now }
{
    match *ended {
        Ok(verdict) | Err(End::Closed(verdict)) => status(verdict),
        Err(End::Told) => 0,
        Err(End::Output | End::Errors | End::Refused) => 2,
        Err(End::Memory) => 3,
    }
}

/// The status of what was found: 0 nothing, 1 a fault, 2 what isn't judged or was refused.
pub fn status(verdict: Verdict) -> u8
    ensures { result ≡ status_of verdict }
{
    match verdict {
        Verdict::Clean => 0,
        Verdict::Faulty => 1,
        Verdict::Unjudged => 2,
    }
}
