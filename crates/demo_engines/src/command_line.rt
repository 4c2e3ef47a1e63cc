//! Reads the line of a command in a listing.

ghost use Rattle.std.specs.Prelude.{◌≡◌, ◌≢◌, ◌↔◌, ◌≤◌, ◌<◌, ◌++◌, ◌∷◌, ℕ, List, [], length, IfSome, IfNone, IsTrue};
ghost use Rattle.demo_engines.specs.Parts.{FitsCommand, command_fields, front_of};
ghost use Rattle.demo_lump.specs.declared.command.Command.{Command};
ghost use Rattle.look_engines.specs.Listing.{ticcmd_line};
ghost use Rattle.look_engines.specs.Turn.{player_of, tic_of};

use crate::numbers::{behind_first, guess_hex, guess_signed, guess_word, take_label};
use demo_listings::prepend_ticcmd;
use demo_lump::Command;
use line_io::TextLine;
use look_engines::PlayerTurn;

/// The version of the long form, whose commands have a turn of two bytes.
const LONG: u8 = 111;

/// The command of this version whose line stands at the front and fits this turn, and what follows the line.
pub fn take_command<'t>(
    version: u8,
    text: &'t [u8],
    turn: &PlayerTurn,
) -> Option<(Command, &'t [u8])>
    ensures some { IfSome result (λ found. text.now
        ≡ ticcmd_line (tic_of turn.now.players turn.now.index) (player_of turn.now.players turn.now.index) found.0 ++ found.1.now) }
    ensures fits { IfSome result (λ found. FitsCommand version found.0) }
    ensures none { IfNone result ((c : Command) (rest : List ℕ) → FitsCommand version c → text.now
        ≢ ticcmd_line (tic_of turn.now.players turn.now.index) (player_of turn.now.players turn.now.index) c ++ rest) }
{
    let front = tic_and_player(turn);
    let Some(behind) = take_label(text, front.as_bytes()) else {
        return None;
    };
    match take_fields(version, behind) {
        Some((command, rest)) => Some((command, rest)),
        None => None,
    }
}

// The line of a command at this turn, up to its fields.
fn tic_and_player(turn: &PlayerTurn) -> TextLine
    ensures { result ≡ front_of (tic_of turn.now.players turn.now.index) (player_of turn.now.players turn.now.index) }
{
    let mut front = TextLine::new();
    front.prepend_bytes(b" ");
    front.prepend_small(turn.player());
    front.prepend_bytes(b" ");
    front.prepend_natural(turn.tic());
    front
}

// The command of this version whose fields stand at the front and end their line, and what follows.
fn take_fields(version: u8, text: &[u8]) -> Option<(Command, &[u8])>
    ensures some { IfSome result (λ found. text.now ≡ command_fields found.0 (10 ∷ found.1.now)) }
    ensures fits { IfSome result (λ found. FitsCommand version found.0) }
    ensures none { IfNone result ((c : Command) (rest : List ℕ) → FitsCommand version c → text.now ≢ command_fields c (10 ∷ rest)) }
{
    let command = guess_command(text);
    // As a byte this is the marker.
    if command.forward == -128 {
        return None;
    }
    if !has_turn(version, command.turn) {
        return None;
    }
    let mut line = TextLine::new();
    line.prepend_bytes(b"\n");
    prepend_ticcmd(&mut line, &command);
    match take_label(text, line.as_bytes()) {
        Some(rest) => Some((command, rest)),
        None => None,
    }
}

// Whether a turn fits into the bytes of a version.
fn has_turn(version: u8, turn: u16) -> bool
    ensures { IsTrue result ↔ (version ≢ 111 → turn < 256) }
{
    version == LONG || turn < 256
}

// The command whose fields stand at the front. If none do, it is any command.
fn guess_command(text: &[u8]) -> Command
    ensures { (version : ℕ) (c : Command) (rest : List ℕ) → FitsCommand version c → text.now ≡ command_fields c rest → result ≡ c }
{
    let (forward, rest) = guess_signed(text);
    let (side, rest) = guess_signed(behind_first(rest));
    let (turn, rest) = guess_word(behind_first(rest));
    let buttons = guess_hex(behind_first(rest));
    Command {
        forward,
        side,
        turn,
        buttons,
    }
}
