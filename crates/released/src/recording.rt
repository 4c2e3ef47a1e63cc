//! What linuxdoom 1.10 writes into a demo, and the header with which it begins to play one.

ghost use Rattle.std.specs.Prelude.{◌≡◌, ◌≤◌, length};
ghost use Rattle.released.specs.PlayDemo.{released_header};
ghost use Rattle.released.specs.WriteTiccmd.{angle_byte, released_written};

use crate::ticcmd::Ticcmd;
use demo_lump::Header;

// VERSION of doomdef.h.
const VERSION: u8 = 110;

/// G_WriteDemoTiccmd of g_game.c: the four bytes of a command in a demo.
pub fn released_written(ticcmd: Ticcmd) -> [u8; 4]
    ensures { result ≡ released_written ticcmd }
{
    [
        ticcmd.forwardmove.cast_unsigned(),
        ticcmd.sidemove.cast_unsigned(),
        angle_byte(ticcmd.angleturn),
        ticcmd.buttons,
    ]
}

// An angle, with half of a byte's step added, as the byte of its higher 8 bits.
fn angle_byte(angleturn: i16) -> u8
    ensures { result ≡ angle_byte angleturn }
{
    let sum = i32::from(angleturn).wrapping_add(128);
    ((sum >> 8).cast_unsigned() % 256) as u8
}

/// G_DoPlayDemo of g_game.c, up to the header that it takes, or None of another version than the game's.
pub fn released_header(bytes: &[u8]) -> Option<Header>
    requires { 13 ≤ length bytes.now }
    ensures { result ≡ released_header bytes.now }
{
    if bytes[0] == VERSION {
        Some(Header {
            version: bytes[0],
            skill: bytes[1],
            episode: bytes[2],
            map: bytes[3],
            deathmatch: bytes[4],
            respawn: bytes[5],
            fast: bytes[6],
            no_monsters: bytes[7],
            viewpoint: bytes[8],
            players: [bytes[9], bytes[10], bytes[11], bytes[12]],
        })
    } else {
        None
    }
}
