//! What a command line asks for.
ghost use Rattle.std.specs.Prelude.{◌≡◌};

use map_level::Reading;

/// A command.
#[derive(Clone, Copy, Debug, PartialEq, Eq)]
pub enum Cmd {
    /// The names and places of all lumps.
    Lumps,
    /// The labels of all levels.
    Levels,
    /// The records of a level.
    Show,
    /// The faults and notes of a level.
    Audit,
    /// The sector and the ssector of each point of the input.
    Points,
    /// How many points of each rectangle of the input lie in each sector.
    Census,
    /// Whether REJECT refuses the sight from one sector to another, for each pair of the input.
    Sight,
    /// The linedefs of the block of each point of the input, as BLOCKMAP lists them.
    Blocks,
    /// A file of a level's lumps alone.
    Extract,
    /// The tic commands of a demo in a lump.
    Demo,
    /// The tic commands of a demo that is a file.
    Lmp,
}

/// What a command line asks for. Its name and its paths are borrowed from its words.
#[derive(Clone, Copy, Debug, PartialEq, Eq)]
pub struct Job {
    /// The command.
    pub command: Cmd,
    /// The place of the first file among the words.
    pub first: usize,
    /// Whether `--wide` follows the command.
    pub wide: bool,
}

impl Job {
    ghost use Rattle.look_engines.specs.Command.{reading_of};

    /// The reading under which the command opens a level.
    pub fn reading(self) -> Reading
        ensures { result ≡ reading_of self }
    {
        if self.wide {
            Reading::Wide
        } else {
            Reading::Signed
        }
    }
}
