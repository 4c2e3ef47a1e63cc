//! The lines of a demo's listing.

ghost use Rattle.std.specs.Prelude.{◌≡◌, ◌+◌, ◌<◌, ◌≤◌, [], ◌++◌, decimal, length};
ghost use Rattle.line_io.specs.declared.text_line.TheConstants.{ROOM};
ghost use Rattle.look_engines.specs.Listing.{ticcmd_line, header_line, hex_byte, totals_line};

use demo_lump::{Command, Header};
use le_rec::hex_digit;
use line_io::TextLine;

/// `<tic> <player> <forward> <side> <turn> <buttons>`
#[inline]
#[tactic(auto, unfolding(crate::specs::Listing::ticcmd_line))]
pub fn prepend_ticcmd(line: &mut TextLine, tic: u64, player: u8, ticcmd: &Command)
    requires { line.old ≡ [] }
    ensures { line.new ≡ ticcmd_line tic player ticcmd.now }
{
    line.prepend_bytes(b"\n");
    prepend_hex(line, ticcmd.buttons);
    line.prepend_bytes(b" ");
    prepend_turn(line, ticcmd.turn);
    line.prepend_bytes(b" ");
    line.prepend_small_integer(ticcmd.side);
    line.prepend_bytes(b" ");
    line.prepend_small_integer(ticcmd.forward);
    line.prepend_bytes(b" ");
    prepend_player(line, player);
    line.prepend_bytes(b" ");
    line.prepend_natural(tic);
}

/// `demo version <v> skill <s> ..`, all numbers of the header under their names.
#[tactic(auto, unfolding(crate::specs::Listing::header_line))]
pub fn prepend_header(line: &mut TextLine, header: &Header)
    requires { line.old ≡ [] }
    ensures { line.new ≡ header_line header.now }
{
    line.prepend_bytes(b"\n");
    prepend_field(line, b" ", header.players[3]);
    prepend_field(line, b" ", header.players[2]);
    prepend_field(line, b" ", header.players[1]);
    prepend_field(line, b" players ", header.players[0]);
    prepend_field(line, b" viewpoint ", header.viewpoint);
    prepend_field(line, b" nomonsters ", header.no_monsters);
    prepend_field(line, b" fast ", header.fast);
    prepend_field(line, b" respawn ", header.respawn);
    prepend_field(line, b" deathmatch ", header.deathmatch);
    prepend_field(line, b" map ", header.map);
    prepend_field(line, b" episode ", header.episode);
    prepend_field(line, b" skill ", header.skill);
    prepend_field(line, b"demo version ", header.version);
}

/// `tics <full tics> odd <odd tic commands> after <bytes after the marker>`
#[tactic(auto, unfolding(crate::specs::Listing::totals_line))]
pub fn prepend_totals(line: &mut TextLine, tics: u64, odd: u64, after: u64)
    requires { line.old ≡ [] }
    ensures { line.new ≡ totals_line tics odd after }
{
    line.prepend_bytes(b"\n");
    line.prepend_natural(after);
    line.prepend_bytes(b" after ");
    line.prepend_natural(odd);
    line.prepend_bytes(b" odd ");
    line.prepend_natural(tics);
    line.prepend_bytes(b"tics ");
}

// Prepends a number of the header behind its label.
fn prepend_field(line: &mut TextLine, label: &[u8], number: u8)
    requires { length line.old + 3 + length label.now ≤ ROOM }
    ensures text { line.new ≡ label.now ++ (decimal number ++ line.old) }
    ensures length { length line.new ≤ length line.old + 3 + length label.now }
{
    line.prepend_small(number);
    line.prepend_bytes(label);
}

// Prepends a player's number. It has one digit.
#[inline]
fn prepend_player(line: &mut TextLine, player: u8)
    requires { length line.old + 3 ≤ ROOM }
    ensures text { line.new ≡ decimal player ++ line.old }
    ensures length { length line.new ≤ length line.old + 3 }
{
    if player < 10 {
        line.prepend_bytes(&[b'0' + player]);
    } else {
        line.prepend_small(player);
    }
}

// Prepends a turn. It is one byte but in the long form.
#[inline]
fn prepend_turn(line: &mut TextLine, turn: u16)
    requires { length line.old + 20 ≤ ROOM }
    ensures text { line.new ≡ decimal turn ++ line.old }
    ensures length { length line.new ≤ length line.old + 20 }
{
    if turn < 256 {
        line.prepend_small(turn as u8);
    } else {
        line.prepend_natural(u64::from(turn));
    }
}

// Prepends two hexadecimal digits.
#[inline]
fn prepend_hex(line: &mut TextLine, byte: u8)
    requires { length line.old + 2 ≤ ROOM }
    ensures text { line.new ≡ hex_byte byte ++ line.old }
    ensures length { length line.new ≡ length line.old + 2 }
{
    line.prepend_bytes(&[hex_digit(byte / 16), hex_digit(byte % 16)]);
}
