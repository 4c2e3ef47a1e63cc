//! The listing of a demo.

ghost use Rattle.std.specs.Prelude.{◌≡◌, ◌++◌, [], false, length};
ghost use Rattle.later_demos.specs.Header.{players_of};
ghost use Rattle.line_io.specs.Writes.{Writes};
ghost use Rattle.look_engines.specs.Listing.{header_line, totals_line, totals_text};
ghost use Rattle.look_engines.specs.Turn.{player_of, tic_of};
ghost use Rattle.later_demos.specs.Game.{game_of};
ghost use Rattle.demo_listings.specs.Listing.{command_line, commands_text, front_text, listing, wrapper_line};

use crate::command_text::prepend_command;
use crate::options::{write_options, write_unread};
use crate::wrapper_line::prepend_wrapper_line;
use later_demos::{LaterCommand, LaterDemo};
use le_rec::Sink;
use line_io::{IoFault, TextLine, emit};
use look_engines::{PlayerTurn, prepend_header};

/// Writes the listing of a demo: Doom's line of the header, what else the header says, a line for each command, and the totals.
///
/// `Write` is the one fault.
pub fn write_listing<W: Sink>(demo: &LaterDemo<'_>, out: &mut W) -> Result<(), IoFault>
    requires { (W.state out.old).failed ≡ false }
    ensures { Writes (W.state out.old) (W.state out.new) (listing demo.now) result }
{
    write_front(demo, out)?;
    write_commands(demo, out)?;
    write_totals(demo, out)
}

// What stands before the commands.
fn write_front<W: Sink>(demo: &LaterDemo<'_>, out: &mut W) -> Result<(), IoFault>
    requires { (W.state out.old).failed ≡ false }
    ensures { Writes (W.state out.old) (W.state out.new) (front_text demo.now) result }
{
    write_header(demo, out)?;
    write_wrapper(demo, out)?;
    write_options(demo, out)?;
    write_unread(demo, out)
}

fn write_header<W: Sink>(demo: &LaterDemo<'_>, out: &mut W) -> Result<(), IoFault>
    requires { (W.state out.old).failed ≡ false }
    ensures { Writes (W.state out.old) (W.state out.new) (header_line (game_of demo.now.layout demo.now.header)) result }
{
    let mut line = TextLine::new();
    prepend_header(&mut line, &demo.game());
    emit(out, line.as_bytes())
}

fn write_wrapper<W: Sink>(demo: &LaterDemo<'_>, out: &mut W) -> Result<(), IoFault>
    requires { (W.state out.old).failed ≡ false }
    ensures { Writes (W.state out.old) (W.state out.new) (wrapper_line demo.now.wrapper demo.now.key_frame) result }
{
    let mut line = TextLine::new();
    prepend_wrapper_line(&mut line, demo.wrapper(), demo.key_frame());
    emit(out, line.as_bytes())
}

fn write_commands<W: Sink>(demo: &LaterDemo<'_>, out: &mut W) -> Result<(), IoFault>
    requires { (W.state out.old).failed ≡ false }
    ensures { Writes (W.state out.old) (W.state out.new)
        (commands_text (players_of demo.now.layout demo.now.header) 0 demo.now.commands) result }
{
    let mut line = TextLine::new();
    let mut turn = PlayerTurn::new(demo.players());
    let mut left = demo.commands();
    'commands: for _index in 0..demo.count() {
        let Some(command) = left.next() else { break };
        write_command(&turn, &command, &mut line, out)?;
        turn.step();
    }
    Ok(())
}

// The line is used again for each command.
fn write_command<W: Sink>(
    turn: &PlayerTurn,
    command: &LaterCommand,
    line: &mut TextLine,
    out: &mut W,
) -> Result<(), IoFault>
    requires { (W.state out.old).failed ≡ false }
    ensures { Writes (W.state out.old) (W.state out.new)
        (command_line (tic_of turn.now.players turn.now.index) (player_of turn.now.players turn.now.index) command.now) result }
{
    line.clear();
    prepend_command_line(line, turn.tic(), turn.player(), command);
    emit(out, line.as_bytes())
}

#[inline]
fn prepend_command_line(line: &mut TextLine, tic: u64, player: u8, command: &LaterCommand)
    requires { line.old ≡ [] }
    ensures { line.new ≡ command_line tic player command.now }
{
    line.prepend_bytes(b"\n");
    prepend_command(line, command);
    line.prepend_bytes(b" ");
    line.prepend_small(player);
    line.prepend_bytes(b" ");
    line.prepend_natural(tic);
}

fn write_totals<W: Sink>(demo: &LaterDemo<'_>, out: &mut W) -> Result<(), IoFault>
    requires { (W.state out.old).failed ≡ false }
    ensures { Writes (W.state out.old) (W.state out.new)
        (totals_text (players_of demo.now.layout demo.now.header) (length demo.now.commands) (length demo.now.rest)) result }
{
    let mut line = TextLine::new();
    let odd = demo.odd_commands() as u64;
    prepend_totals(
        &mut line,
        demo.full_tics() as u64,
        odd,
        demo.rest().len() as u64,
    );
    emit(out, line.as_bytes())
}

// `tics 1531 odd 0 after 0`
#[tactic(auto, unfolding(look_engines::specs::Listing::totals_line))]
fn prepend_totals(line: &mut TextLine, tics: u64, odd: u64, after: u64)
    requires { line.old ≡ [] }
    ensures { line.new ≡ totals_line tics odd after }
{
    line.prepend_bytes(b"\n");
    line.prepend_natural(after);
    line.prepend_bytes(b" after ");
    line.prepend_natural(odd);
    line.prepend_bytes(b" odd ");
    line.prepend_natural(tics);
    line.prepend_bytes(b"tics ");
}
