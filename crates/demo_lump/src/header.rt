//! The header of a demo.

ghost use Rattle.std.specs.Prelude.{◌≡◌, ◌+◌, ◌↔◌, ◌∷◌, length, IfOk, IfErr, IsTrue};
ghost use Rattle.demo_lump.specs.Header.{IsHeader, IsVersion, header_of, players_in};

use crate::fault::DemoFault;

/// The number of bytes of a header.
pub(crate) const HEADER: usize = 13;

/// How the game of a demo is set up: its level and rules, and who
/// plays (`G_BeginRecording` of `g_game.c`).
#[derive(Clone, Copy, Debug, PartialEq, Eq)]
pub struct Header {
    /// 109, 110 or 111.
    pub version: u8,
    /// From 0, the easiest.
    pub skill: u8,
    pub episode: u8,
    pub map: u8,
    /// Where not 0, the players fight one another.
    pub deathmatch: u8,
    /// Where not 0, killed monsters come back.
    pub respawn: u8,
    /// Where not 0, monsters and their shots are faster.
    pub fast: u8,
    /// Where not 0, the level has no monsters.
    pub no_monsters: u8,
    /// The player whose view is shown, from 0.
    pub viewpoint: u8,
    /// For each of players 1 to 4 whether it is in the game: not 0.
    pub players: [u8; 4],
}

/// Whether demos of the version are read.
#[inline]
pub(crate) fn is_version(version: u8) -> bool
    ensures { IsTrue result ↔ IsVersion version }
{
    (109..=111).contains(&version)
}

/// The header that a version and the 12 bytes behind it hold, or `NoPlayers`.
pub(crate) fn read_fields(version: u8, bytes: &[u8]) -> Result<Header, DemoFault>
    requires long { length bytes.now + 1 ≡ HEADER }
    requires version { IsVersion version }
    ensures ok { IfOk result (IsHeader (version ∷ bytes.now)) }
    ensures fault { IfErr result (λ fault. fault ≡ DemoFault.NoPlayers) }
    ensures no_players { IfErr result (λ _.
        players_in (header_of (version ∷ bytes.now)).players ≡ 0) }
{
    let header = header_from(version, bytes);
    if count_players(&header.players) == 0 {
        return Err(DemoFault::NoPlayers);
    }
    Ok(header)
}

/// The header that a version and the 12 bytes behind it hold.
fn header_from(version: u8, bytes: &[u8]) -> Header
    requires { length bytes.now + 1 ≡ HEADER }
    ensures { result ≡ header_of (version ∷ bytes.now) }
{
    let mut players = [0; 4];
    players.copy_from_slice(&bytes[8..12]);
    Header {
        version,
        skill: bytes[0],
        episode: bytes[1],
        map: bytes[2],
        deathmatch: bytes[3],
        respawn: bytes[4],
        fast: bytes[5],
        no_monsters: bytes[6],
        viewpoint: bytes[7],
        players,
    }
}

/// How many players are in the game.
pub(crate) fn count_players(players: &[u8]) -> usize
    ensures { result ≡ players_in players.now }
{
    players.iter().filter(|byte| **byte != 0).count()
}
