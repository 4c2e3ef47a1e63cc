//! A command as linuxdoom 1.10 reads it from a demo.

ghost use Rattle.std.specs.Prelude.{◌≡◌, ◌≤◌, length};
ghost use Rattle.released.specs.ReadTiccmd.{signed_char, angle_turn, released_ticcmd};

/// A command for one tic as the game holds it: the part of `ticcmd_t` of d_ticcmd.h that a demo
/// has.
#[derive(Clone, Copy, Debug, PartialEq, Eq)]
pub struct Ticcmd {
    pub forwardmove: i8,
    pub sidemove: i8,
    pub angleturn: i16,
    pub buttons: u8,
}

const DEMOMARKER: u8 = 0x80;

/// G_ReadDemoTiccmd of g_game.c: the command that four bytes hold, or None at the end marker.
pub fn released_ticcmd(bytes: &[u8]) -> Option<Ticcmd>
    requires { 4 ≤ length bytes.now }
    ensures { result ≡ released_ticcmd bytes.now }
{
    if bytes[0] == DEMOMARKER {
        return None;
    }
    Some(Ticcmd {
        forwardmove: signed_char(bytes[0]),
        sidemove: signed_char(bytes[1]),
        angleturn: angle_turn(bytes[2]),
        buttons: bytes[3],
    })
}

// A byte as a signed char.
fn signed_char(byte: u8) -> i8
    ensures { result ≡ signed_char byte }
{
    byte.cast_signed()
}

// A byte as the high one of a short.
fn angle_turn(byte: u8) -> i16
    ensures { result ≡ angle_turn byte }
{
    (u16::from(byte) << 8).cast_signed()
}
