//! A command in a line.

ghost use Rattle.std.specs.Prelude.{◌≡◌, ◌+◌, ◌≤◌, ◌++◌, length};
ghost use Rattle.std.specs.Fmt.{decimal};
ghost use Rattle.demo_listings.specs.CommandText.{actions_text, command_text, slot_text, ticcmd_text};
ghost use Rattle.look_engines.specs.Listing.{hex_byte};

use demo_lump::Command;
use later_demos::{Actions, LaterCommand};
use le_rec::hex_digit;
use line_io::TextLine;

/// `50 0 0 00`, and behind it what DSDA-Doom adds.
#[inline]
pub fn prepend_command(line: &mut TextLine, command: &LaterCommand)
    requires { length line.old ≤ 65 }
    ensures text { line.new ≡ command_text command.now ++ line.old }
    ensures length { length line.new ≤ length line.old + 44 }
{
    prepend_actions(line, command.actions);
    prepend_ticcmd(line, &command.ticcmd);
}

/// `50 0 0 00`, what every demo's command has.
#[inline]
pub fn prepend_ticcmd(line: &mut TextLine, ticcmd: &Command)
    requires { length line.old ≤ 76 }
    ensures text { line.new ≡ ticcmd_text ticcmd.now ++ line.old }
    ensures length { length line.new ≤ length line.old + 33 }
{
    prepend_hex(line, ticcmd.buttons);
    line.prepend_bytes(b" ");
    prepend_turn(line, ticcmd.turn);
    line.prepend_bytes(b" ");
    line.prepend_small_integer(ticcmd.side);
    line.prepend_bytes(b" ");
    line.prepend_small_integer(ticcmd.forward);
}

// A turn has one byte in most demos.
#[inline]
fn prepend_turn(line: &mut TextLine, turn: u16)
    requires { length line.old ≤ 100 }
    ensures text { line.new ≡ decimal turn ++ line.old }
    ensures length { length line.new ≤ length line.old + 20 }
{
    if turn < 256 {
        line.prepend_small(turn as u8);
    } else {
        line.prepend_natural(u64::from(turn));
    }
}

// ` 06 5 5`
#[inline]
fn prepend_actions(line: &mut TextLine, actions: Option<Actions>)
    requires { length line.old ≤ 65 }
    ensures text { line.new ≡ actions_text actions ++ line.old }
    ensures length { length line.new ≤ length line.old + 11 }
{
    let Some(actions) = actions else {
        return;
    };
    prepend_slot(line, actions.load);
    prepend_slot(line, actions.save);
    prepend_hex(line, actions.actions);
    line.prepend_bytes(b" ");
}

#[inline]
fn prepend_slot(line: &mut TextLine, slot: Option<u8>)
    requires { length line.old ≤ 80 }
    ensures text { line.new ≡ slot_text slot ++ line.old }
    ensures length { length line.new ≤ length line.old + 4 }
{
    let Some(slot) = slot else {
        return;
    };
    line.prepend_small(slot);
    line.prepend_bytes(b" ");
}

// Two hexadecimal digits.
#[inline]
fn prepend_hex(line: &mut TextLine, byte: u8)
    requires { length line.old ≤ 80 }
    ensures text { line.new ≡ hex_byte byte ++ line.old }
    ensures length { length line.new ≤ length line.old + 2 }
{
    line.prepend_bytes(&[hex_digit(byte / 16), hex_digit(byte % 16)]);
}
