//! How a run ends that the arguments don't start.

use std::alloc::AllocError;

/// How a run ends that the arguments don't start.
#[derive(Clone, Copy, Debug, PartialEq, Eq)]
pub enum Unstarted {
    /// A growth was refused.
    Memory,
    /// The help or the version, which was asked for, can't be written to standard output.
    Output,
    /// The words are wrong. This was told on standard error.
    Refused,
    /// The help or the version, which was asked for, was printed.
    Told,
}

impl From<AllocError> for Unstarted {
    ghost use Rattle.std.specs.Prelude.{◌≡◌};
    ghost use Rattle.lens_words.specs.declared.unstarted.Unstarted.TheVariants.{Memory};

    ghost from_gives = { λ _ ended. ended ≡ Memory };

    fn from(_error: AllocError) -> Unstarted {
        Unstarted::Memory
    }
}
