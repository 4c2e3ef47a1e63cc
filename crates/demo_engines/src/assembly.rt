//! A demo assembled from its listing.

ghost use Rattle.std.specs.Prelude.{◌≡◌, ◌≢◌, ◌↔◌, ◌≤◌, ◌<◌, ◌^◌, ◌%◌, ◌++◌, ℕ, List, length, IfOk, IfErr, IfSome, IfNone, IsTrue};
ghost use Rattle.std.specs.List.{AllByRecursion};
ghost use Rattle.demo_engines.specs.Assembly.{IsAssembled, IsTakenFrom, LacksEnd, WantsFirst, WhyNone, wanted_behind};
ghost use Rattle.demo_engines.specs.declared.assembly.AssembleFault.TheVariants as fault;
ghost use Rattle.demo_engines.specs.Parts.{FitsCommand, totals_front};
ghost use Rattle.demo_lump.specs.Header.{players_in};
ghost use Rattle.look_engines.specs.Listing.{ticcmds_text, totals_line};
ghost use Rattle.look_engines.specs.Turn.{tic_of};

use crate::command_line::take_command;
use crate::header_line::take_header;
use crate::numbers::{behind_last_number, take_label};
use demo_lump::{Command, write_demo};
use line_io::TextLine;
use look_engines::PlayerTurn;
use std::alloc::{AllocError, Global};
use thiserror::Error;

/// What must follow where a text stops being a listing: the first of these that holds.
#[derive(Clone, Copy, Debug, PartialEq, Eq)]
pub enum Wanted {
    /// The end of the line, which the last line lacks.
    LineEnd,
    /// A header.
    Header,
    /// Nothing: the totals came before.
    Nothing,
    /// The totals, with so many tics and odd commands: the line begins as a line of totals does.
    Totals(u64, u64),
    /// The command of a tic and a player, by the player's number, or the totals.
    TicCommand(u64, u8),
}

/// Why no demo can be assembled from a listing.
#[derive(Clone, Copy, Debug, PartialEq, Eq, Error)]
pub enum AssembleFault {
    /// The number of the first line that is none of a listing, from 1 on; where the text stops short, that of the line behind its last.
    /// And what is wanted there.
    #[error("line {0} is no line of a listing")]
    Line(u64, Wanted),
    /// A growth was refused.
    #[error("no memory left")]
    Memory,
}

/// The header, the commands and the marker of the demo with this listing, as `demo_text` writes it.
pub fn assemble(alloc: Global, listing: &[u8]) -> Result<Vec<u8>, AssembleFault>
    ensures ok { IfOk result (λ bytes. IsAssembled listing.now bytes.items) }
    ensures wrong { IfErr result (WhyNone listing.now) }
{
    let Some((header, behind)) = take_header(listing) else {
        return Err(wrong_line(1, listing, Wanted::Header));
    };
    let Ok(taken) = take_commands(alloc, header.version, header.players, behind) else {
        return Err(AssembleFault::Memory);
    };
    let lines = taken.commands.len() as u64;
    let Some(rest) = take_totals(taken.rest, &taken.turn) else {
        let wanted = wanted_behind(taken.rest, &taken.turn);
        return Err(wrong_line(lines + 2, taken.rest, wanted));
    };
    if !rest.is_empty() {
        return Err(wrong_line(lines + 3, rest, Wanted::Nothing));
    }
    match write_demo(alloc, &header, &taken.commands) {
        Ok(bytes) => Ok(bytes),
        Err(_) => Err(AssembleFault::Memory),
    }
}

// The fault of a line. The text begins with that line, if there is one. If the line has no end, that is what must follow.
fn wrong_line(number: u64, text: &[u8], wanted: Wanted) -> AssembleFault
    ensures { (found : _) × WantsFirst text.now wanted found × (result ≡ fault.Line number found) }
{
    if lacks_end(text) {
        return AssembleFault::Line(number, Wanted::LineEnd);
    }
    AssembleFault::Line(number, wanted)
}

fn lacks_end(text: &[u8]) -> bool
    ensures { IsTrue result ↔ LacksEnd text.now }
{
    !text.is_empty() && !text.contains(&b'\n')
}

// What must follow the lines of commands, if neither one more nor the totals do.
fn wanted_behind(text: &[u8], turn: &PlayerTurn) -> Wanted
    ensures { result ≡ wanted_behind text.now turn.now }
{
    if text.starts_with(b"tics") {
        Wanted::Totals(turn.tic(), turn.odd())
    } else {
        Wanted::TicCommand(turn.tic(), turn.player())
    }
}

// What was taken of the lines of commands.
#[derive(Drop)]
struct Taken<'t> {
    commands: Vec<Command>,
    // Whose turn is next.
    turn: PlayerTurn,
    // What follows the lines.
    rest: &'t [u8],
}

// All commands whose lines stand at the front, in turn.
fn take_commands<'t>(
    alloc: Global,
    version: u8,
    players: [u8; 4],
    text: &'t [u8],
) -> Result<Taken<'t>, AllocError>
    requires { 0 < players_in players }
    ensures { IfOk result (λ taken. IsTakenFrom version players text.now taken.commands.items taken.turn taken.rest.now) }
{
    let mut commands = Vec::new(alloc);
    let mut turn = PlayerTurn::new(players);
    let mut rest = text;
    while let Some((command, behind)) = take_command(version, rest, &turn) {
        commands.push(command)?;
        turn.step();
        rest = behind;
    }
    Ok(Taken {
        commands,
        turn,
        rest,
    })
}

// What follows the line of totals, if that line stands at the front and fits this turn.
fn take_totals<'t>(text: &'t [u8], turn: &PlayerTurn) -> Option<&'t [u8]>
    ensures some { IfSome result (λ rest. (after : ℕ) × (after < 2 ^ 64) × (text.now
        ≡ totals_line (tic_of turn.now.players turn.now.index) (turn.now.index % players_in turn.now.players) after ++ rest.now)) }
    ensures none { IfNone result ((after : ℕ) (rest : List ℕ) → after < 2 ^ 64 → text.now
        ≢ totals_line (tic_of turn.now.players turn.now.index) (turn.now.index % players_in turn.now.players) after ++ rest) }
{
    let front = totals_before_after(turn);
    let Some(behind) = take_label(text, front.as_bytes()) else {
        return None;
    };
    match behind_last_number(behind) {
        Some(rest) => Some(rest),
        None => None,
    }
}

// The totals' line at this turn up to the number of bytes after the demo.
fn totals_before_after(turn: &PlayerTurn) -> TextLine
    ensures { result ≡ totals_front (tic_of turn.now.players turn.now.index) (turn.now.index % players_in turn.now.players) }
{
    let mut front = TextLine::new();
    front.prepend_bytes(b" after ");
    front.prepend_natural(turn.odd());
    front.prepend_bytes(b" odd ");
    front.prepend_natural(turn.tic());
    front.prepend_bytes(b"tics ");
    front
}
