//! Where two demos first differ.

ghost use Rattle.std.specs.Prelude.{◌≡◌, ◌≢◌, ◌≤◌, [], false, length, MatchBool};
ghost use Rattle.look_engines.specs.Turn.{player_of, tic_of};
ghost use Rattle.demo_listings.specs.Differences.{AreCommandsCompared, Compares, FrontDiffers, IsCompared, SameFront, StopsAt, command_line, counts_line, end_line, player_count};

use crate::command_text::prepend_command;
use crate::heads::prepend_in_heads;
use crate::meaning::{Compared, meaning_of};
use crate::numbers::prepend_labelled;
use later_demos::{LaterCommand, LaterDemo};
use le_rec::Sink;
use line_io::{IoFault, TextLine, emit};
use look_engines::PlayerTurn;

/// Writes where two demos first differ, in one line, or nothing if all that is compared is the same. Returns whether it is.
/// `header: skill 3, 4` is a part of the header, and `tic 118 player 1: 50 0 0 00, 25 0 0 00` a command as a listing has it.
/// `A ends at tic 118` is the end of one demo where the other goes on. What comes after the markers isn't compared.
///
/// `Write` is the only fault.
pub fn compare_demos<W: Sink>(
    what: Compared,
    a: &LaterDemo<'_>,
    b: &LaterDemo<'_>,
    out: &mut W,
) -> Result<bool, IoFault>
    requires { (W.state out.old).failed ≡ false }
    ensures { Compares what a.now b.now (W.state out.old) (W.state out.new) result }
{
    let mut line = TextLine::new();
    if prepend_difference(&mut line, what, a, b) {
        return Ok(true);
    }
    match emit(out, line.as_bytes()) {
        Ok(()) => Ok(false),
        Err(fault) => Err(fault),
    }
}

// Puts the line of the first difference before the line, and returns whether there is none.
fn prepend_difference(
    line: &mut TextLine,
    what: Compared,
    a: &LaterDemo<'_>,
    b: &LaterDemo<'_>,
) -> bool
    requires { line.old ≡ [] }
    ensures { IsCompared what a.now b.now line.new result }
{
    if prepend_in_front(line, what, a, b) {
        return false;
    }
    prepend_in_commands(line, what, a, b)
}

// The line of what differs before the commands, where that differs; whether it does.
fn prepend_in_front(
    line: &mut TextLine,
    what: Compared,
    a: &LaterDemo<'_>,
    b: &LaterDemo<'_>,
) -> bool
    requires { line.old ≡ [] }
    ensures { MatchBool result (FrontDiffers what a.now b.now line.new) (SameFront what a.now b.now × (line.new ≡ [])) }
{
    match what {
        Compared::Everything => prepend_in_heads(line, a, b),
        Compared::Commands => prepend_in_players(line, a, b),
    }
}

// The line of the numbers of players, where they differ; whether they do.
fn prepend_in_players(line: &mut TextLine, a: &LaterDemo<'_>, b: &LaterDemo<'_>) -> bool
    requires { line.old ≡ [] }
    ensures { MatchBool result ((player_count a.now ≢ player_count b.now) × (line.new ≡ counts_line (player_count a.now) (player_count b.now)))
        ((player_count a.now ≡ player_count b.now) × (line.new ≡ [])) }
{
    let of_a = a.player_count();
    let of_b = b.player_count();
    if of_a == of_b {
        return false;
    }
    line.prepend_bytes(b"\n");
    prepend_labelled(line, b",", of_b as u64);
    prepend_labelled(line, b"players", of_a as u64);
    true
}

// The line of the first difference of the commands, where they differ; whether they are the same.
fn prepend_in_commands(
    line: &mut TextLine,
    what: Compared,
    a: &LaterDemo<'_>,
    b: &LaterDemo<'_>,
) -> bool
    requires { line.old ≡ [] }
    ensures { AreCommandsCompared what a.now b.now line.new result }
{
    let mut turn = PlayerTurn::new(a.players());
    match first_stop(what, a, b, &mut turn) {
        Stop::Same => true,
        Stop::Differ(x, y) => {
            prepend_command_line(line, &turn, &x, &y);
            false
        }
        Stop::EndOfA => {
            prepend_end_line(line, b"A", turn.tic());
            false
        }
        Stop::EndOfB => {
            prepend_end_line(line, b"B", turn.tic());
            false
        }
    }
}

/// Where commands stop being the same.
#[derive(Clone, Copy)]
enum Stop {
    /// They don't: both demos end.
    Same,
    /// At these commands of both.
    Differ(LaterCommand, LaterCommand),
    /// At the end of the first demo, where the second goes on.
    EndOfA,
    /// At the end of the second demo, where the first goes on.
    EndOfB,
}

// Goes on to where the commands stop being the same.
fn first_stop(what: Compared, a: &LaterDemo<'_>, b: &LaterDemo<'_>, turn: &mut PlayerTurn) -> Stop
    requires { turn.old.index ≡ 0 }
    ensures players { turn.new.players ≡ turn.old.players }
    ensures stops { StopsAt what a.now b.now turn.new.index result }
{
    let mut left_of_a = a.commands();
    let mut left_of_b = b.commands();
    'commands: for _index in 0..a.count() + 1 {
        match (left_of_a.next(), left_of_b.next()) {
            (Some(x), Some(y)) => {
                if meaning_of(what, a, &x) != meaning_of(what, b, &y) {
                    return Stop::Differ(x, y);
                }
                turn.step();
            }
            (None, Some(_)) => return Stop::EndOfA,
            (Some(_), None) => return Stop::EndOfB,
            (None, None) => return Stop::Same,
        }
    }
    unreachable!()
}

fn prepend_command_line(line: &mut TextLine, turn: &PlayerTurn, a: &LaterCommand, b: &LaterCommand)
    requires { line.old ≡ [] }
    ensures { line.new ≡ command_line (tic_of turn.now.players turn.now.index) (player_of turn.now.players turn.now.index) a.now b.now }
{
    line.prepend_bytes(b"\n");
    prepend_command(line, b);
    line.prepend_bytes(b", ");
    prepend_command(line, a);
    line.prepend_bytes(b": ");
    line.prepend_small(turn.player());
    line.prepend_bytes(b" player ");
    line.prepend_natural(turn.tic());
    line.prepend_bytes(b"tic ");
}

// `A ends at tic 118`
fn prepend_end_line(line: &mut TextLine, name: &[u8], tic: u64)
    requires empty { line.old ≡ [] }
    requires short { length name.now ≤ 1 }
    ensures { line.new ≡ end_line name.now tic }
{
    line.prepend_bytes(b"\n");
    line.prepend_natural(tic);
    line.prepend_bytes(b" ends at tic ");
    line.prepend_bytes(name);
}
