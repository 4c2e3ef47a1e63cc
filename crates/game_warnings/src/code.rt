//! The codes of what the game does with a level.

/// The codes, in the order of a report.
#[derive(Clone, Copy, Debug, PartialEq, Eq)]
pub enum GameCode {
    /// A linedef's special is none of the game's.
    W14,
    /// A linedef's special goes by the tag, and the tag is 0.
    W15,
    /// A linedef's special can't be triggered, or takes nowhere.
    W16,
    /// A linedef's use ends or spoils the game.
    W17,
    /// A player on the floor of a sector ends the game.
    W18,
    /// The level has no exit, or a key isn't there.
    W19,
    /// A thing ends the reading of things, is in no skill, or ends the game.
    W21,
    /// The level has more of something than the game has room for.
    W22,
    /// A sector's flat isn't between the ends of the flats.
    W25,
}
