//! Why bytes are no demo, and why a source gave none.

use crate::header::HEADER;
use thiserror::Error;

/// Why bytes are no demo: the first reason that holds.
#[derive(Clone, Copy, Debug, PartialEq, Eq, Error)]
pub enum DemoFault {
    /// There is no byte.
    #[error("empty")]
    Empty,
    /// The first byte is another version than 109, 110 and 111.
    #[error("version {0}: not read")]
    Version(u8),
    /// There are fewer bytes than a header has.
    #[error("fewer bytes than a header's {size}", size = HEADER)]
    ShortHeader,
    /// No player is in the game.
    #[error("no player in the game")]
    NoPlayers,
    /// After the most whole commands comes no marker: the place where it should stand,
    /// counted from the demo's first byte.
    #[error("no end marker: the bytes from place {0} on make no whole command")]
    NoMarker(u64),
}

/// Why a source gave no further piece of a demo.
#[derive(Clone, Copy, Debug, PartialEq, Eq, Error)]
pub enum StreamFault {
    /// What came is no demo.
    #[error("{0}")]
    Demo(DemoFault),
    /// The source failed.
    #[error("the source can't be read")]
    Read,
    /// The source gave a byte past the limit.
    #[error("longer than the limit")]
    TooLong,
}
