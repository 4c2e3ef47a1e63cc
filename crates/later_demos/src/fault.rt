//! Why bytes are no demo.

ghost use Rattle.std.specs.Prelude.{◌≡◌};
ghost use Rattle.later_demos.specs.FaultText.{early_text};

use crate::layout::Engine;
use thiserror::Error;

/// Why bytes are no demo: the first reason that holds. Places and lengths count from the first byte.
#[derive(Clone, Copy, Debug, PartialEq, Eq, Error)]
pub enum LaterFault {
    /// There is no byte.
    #[error("empty")]
    Empty,
    /// The version isn't read. It is 255 where that byte begins no wrapper, or stands in one.
    #[error("version {0}{early}: not read", early = early_name(*.0))]
    Version(u8),
    /// A wrapper of DSDA-Doom has another version than 1 and 2.
    #[error("version 255 (DSDA {0}): not read")]
    Dsda(u8),
    /// A wrapper of PrBoom+um has another version than 1, or not just the extension `UMAPINFO`.
    #[error("version 255 (PR+UM): not read")]
    PrUm,
    /// There are fewer bytes than those of a wrapper or a header: how many there are, and how many are wanted.
    #[error("{0} bytes of a header's {1}")]
    Short(u64, u64),
    /// One of the bytes behind the version isn't the signature's of the engine.
    #[error("version {0} ({name}): its signature isn't {bytes}", name = .1.name(), bytes = .1.signature_digits())]
    Signature(u8, Engine),
    /// MBF21's header says that it has more than 25 compatibility options.
    #[error("{0} compatibility options, 25 are the most")]
    Options(u8),
    /// No player is in the game.
    #[error("no player in the game")]
    NoPlayers,
    /// The key frame of DSDA-Doom isn't all there.
    #[error("its key frame isn't whole")]
    KeyFrame,
    /// After the most whole commands comes no marker: the place where it should stand.
    #[error("no end marker: the bytes from place {0} on make no whole command")]
    NoMarker(u64),
}

// Whose version it is that is told, though it isn't read: those of Doom 1.2 have the skill as their first byte.
fn early_name(version: u8) -> &'static str
    ensures { result.now ≡ early_text version }
{
    if version < 5 { " (1.2 and before)" } else { "" }
}
