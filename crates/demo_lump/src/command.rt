//! One player's command for one tic.

ghost use Rattle.std.specs.Prelude.{◌≡◌, ◌≤◌, ◌+◌, ◌∷◌, length};
ghost use Rattle.demo_lump.specs.Command.{command_of, command_size, long_command_of};
ghost use Rattle.demo_lump.specs.Command.{short_command_of, signed8};

use le_rec::number::u16_at;

/// The version of the long form, whose commands have a turn of two bytes.
pub(crate) const LONG: u8 = 111;

/// The byte in place of a command at the end of a demo (`DEMOMARKER` of `g_game.c`).
pub(crate) const MARKER: u8 = 128;

/// One player's command for one tic (`ticcmd_t` of `d_ticcmd.h`).
#[derive(Clone, Copy, Debug, PartialEq, Eq)]
pub struct Command {
    /// Forwards, or backwards if negative.
    pub forward: i8,
    /// To the right, or to the left if negative.
    pub side: i8,
    /// Under version 111 a whole 16-bit angle, under the others its high byte alone.
    pub turn: u16,
    /// Bits (`BT_ATTACK` and the others of `d_event.h`): 1 attacks, 2 uses, and 4 changes to the
    /// weapon whose number is in bits 3 to 5. 128 makes the others a request to the game, such as a
    /// pause.
    pub buttons: u8,
}

/// The number of bytes of a command.
#[inline]
#[tactic(auto, unfolding(crate::specs::Command::command_size))]
pub(crate) fn size_of_command(version: u8) -> usize
    ensures size { result ≡ command_size version }
    ensures least { 4 ≤ result }
    ensures most { result ≤ 5 }
{
    if version == LONG { 5 } else { 4 }
}

#[inline]
fn signed(byte: u8) -> i8
    ensures { result ≡ signed8 byte }
{
    byte.cast_signed()
}

#[inline]
fn long_command(first: u8, bytes: &[u8]) -> Command
    requires { length bytes.now ≡ 4 }
    ensures { result ≡ long_command_of (first ∷ bytes.now) }
{
    Command {
        forward: signed(first),
        side: signed(bytes[0]),
        turn: u16_at(bytes, 1),
        buttons: bytes[3],
    }
}

#[inline]
fn short_command(first: u8, bytes: &[u8]) -> Command
    requires { length bytes.now ≡ 3 }
    ensures { result ≡ short_command_of (first ∷ bytes.now) }
{
    Command {
        forward: signed(first),
        side: signed(bytes[0]),
        turn: u16::from(bytes[1]),
        buttons: bytes[2],
    }
}

/// The command that a first byte and the bytes behind it hold.
#[inline]
#[tactic(auto, unfolding(crate::specs::Command::command_size, crate::specs::Command::command_of))]
pub(crate) fn command_from(version: u8, first: u8, bytes: &[u8]) -> Command
    requires { length bytes.now + 1 ≡ command_size version }
    ensures { result ≡ command_of version (first ∷ bytes.now) }
{
    if version == LONG {
        long_command(first, bytes)
    } else {
        short_command(first, bytes)
    }
}
