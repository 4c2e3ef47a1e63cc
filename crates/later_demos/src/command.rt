//! One player's command for one tic, and commands one after another.

ghost use Rattle.std.specs.Prelude.{◌≡◌, ◌≤◌, ◌+◌, ◌<◌, ◌^◌, ◌%◌, false, length, slice_index, MatchOption};
ghost use Rattle.demo_lump.specs.Command.{long_command_of, short_command_of, signed8};
ghost use Rattle.std.specs.Iterator.{YieldsFirst, item_count};
ghost use Rattle.later_demos.specs.Command.{IsNext, commands_in, left_in};
ghost use Rattle.later_demos.specs.Command.{actions_at, begins, command_of, command_size, loads, saves, ticcmd_size};

use crate::numbers::byte_at;
use demo_lump::Command;
use le_rec::number::u16_at;
use std::marker::Model;

/// The byte in place of a command at the end of a demo (`DEMOMARKER` of `g_game.c`).
pub(crate) const MARKER: u8 = 128;

/// How the commands of a demo lie.
#[derive(Clone, Copy, Debug, PartialEq, Eq)]
pub struct CommandForm {
    /// A turn has two bytes.
    pub long: bool,
    /// A command has actions behind it.
    pub actions: bool,
}

/// What DSDA-Doom writes behind a command.
#[derive(Clone, Copy, Debug, PartialEq, Eq)]
pub struct Actions {
    /// Bits: 1 jumps, 2 saves the game, 4 loads one, 8 is god mode, 16 is noclip.
    pub actions: u8,
    /// The slot in which the game is saved.
    pub save: Option<u8>,
    /// The slot from which it is loaded.
    pub load: Option<u8>,
}

/// One player's command for one tic.
#[derive(Clone, Copy, Debug, PartialEq, Eq)]
pub struct LaterCommand {
    /// What every demo's command has. The turn has one byte or two.
    pub ticcmd: Command,
    /// What it has besides in a wrapper of DSDA-Doom.
    pub actions: Option<Actions>,
}

/// The bytes of the command that bytes begin with, or None where they begin with no whole command.
#[inline]
#[tactic(auto, unfolding(crate::specs::Command::begins))]
pub(crate) fn next_size(form: CommandForm, bytes: &[u8]) -> Option<usize>
    ensures { MatchOption result (begins form bytes.now ≡ false) (λ n. IsNext form bytes.now n) }
{
    if bytes.is_empty() {
        return None;
    }
    if bytes[0] == MARKER {
        return None;
    }
    let size = command_size(form, bytes);
    if size > bytes.len() {
        return None;
    }
    Some(size)
}

// The number of bytes that the command at the front wants.
#[inline]
#[tactic(auto, unfolding(crate::specs::Command::command_size))]
fn command_size(form: CommandForm, bytes: &[u8]) -> usize
    ensures size { result ≡ command_size form bytes.now }
    ensures least { ticcmd_size form ≤ result }
{
    let size = ticcmd_size(form);
    if !form.actions {
        return size;
    }
    let actions = byte_at(bytes, size);
    size + 1 + usize::from(saves(actions)) + usize::from(loads(actions))
}

#[inline]
fn ticcmd_size(form: CommandForm) -> usize
    ensures size { result ≡ ticcmd_size form }
    ensures most { result ≤ 5 }
{
    if form.long { 5 } else { 4 }
}

// 1 where the game is saved.
#[inline]
fn saves(actions: u8) -> u8
    ensures { result ≡ saves actions }
{
    actions / 2 % 2
}

// 1 where a game is loaded.
#[inline]
fn loads(actions: u8) -> u8
    ensures { result ≡ loads actions }
{
    actions / 4 % 2
}

/// The command that bytes begin with.
#[inline]
#[tactic(auto, unfolding(crate::specs::Command::command_of))]
pub(crate) fn command_from(form: CommandForm, bytes: &[u8]) -> LaterCommand
    requires { ticcmd_size form ≤ length bytes.now }
    ensures { result ≡ command_of form bytes.now }
{
    LaterCommand {
        ticcmd: if form.long {
            long_command(bytes)
        } else {
            short_command(bytes)
        },
        actions: if form.actions {
            Some(actions_at(bytes, ticcmd_size(form)))
        } else {
            None
        },
    }
}

fn actions_at(bytes: &[u8], at: usize) -> Actions
    requires { at ≤ 5 }
    ensures { result ≡ actions_at bytes.now at }
{
    let actions = byte_at(bytes, at);
    Actions {
        actions,
        save: if saves(actions) == 1 {
            Some(byte_at(bytes, at + 1))
        } else {
            None
        },
        load: if loads(actions) == 1 {
            Some(byte_at(bytes, at + 1 + usize::from(saves(actions))))
        } else {
            None
        },
    }
}

#[inline]
fn signed(byte: u8) -> i8
    ensures { result ≡ signed8 byte }
{
    byte.cast_signed()
}

#[inline]
fn long_command(bytes: &[u8]) -> Command
    requires { 5 ≤ length bytes.now }
    ensures { result ≡ long_command_of bytes.now }
{
    Command {
        forward: signed(bytes[0]),
        side: signed(bytes[1]),
        turn: u16_at(bytes, 2),
        buttons: bytes[4],
    }
}

#[inline]
fn short_command(bytes: &[u8]) -> Command
    requires { 4 ≤ length bytes.now }
    ensures { result ≡ short_command_of bytes.now }
{
    Command {
        forward: signed(bytes[0]),
        side: signed(bytes[1]),
        turn: u16::from(bytes[2]),
        buttons: bytes[3],
    }
}

/// The commands that are left of a demo, in order. A `for` over them takes no memory.
#[derive(Drop)]
pub struct Commands<'a> {
    form: CommandForm,
    bytes: &'a [u8],
}

impl<'a> Model for Commands<'a> {
    ghost use Rattle.std.specs.Prelude.{List};
    ghost use Rattle.later_demos.specs.Command.{commands_in};
    ghost use Rattle.later_demos.specs.declared.command.LaterCommand.{LaterCommand};

    ghost Value = { List LaterCommand };

    ghost view = { λ c. commands_in c.form c.bytes.now };
}

impl<'a> Commands<'a> {
    /// The most commands that bytes begin with.
    pub(crate) fn of(form: CommandForm, bytes: &'a [u8]) -> Commands<'a>
        ensures { result ≡ commands_in form bytes.now }
    {
        Commands { form, bytes }
    }
}

impl<'a> Iterator for Commands<'a> {
    type Item = LaterCommand;

    ghost next_gives = { YieldsFirst (λ left. left) };

    ghost remaining = { item_count (λ left. left) };

    #[inline]
    fn next(&mut self) -> Option<LaterCommand> {
        let size = next_size(self.form, self.bytes)?;
        let command = command_from(self.form, self.bytes);
        self.bytes = &self.bytes[size..];
        Some(command)
    }
}

/// How many commands bytes begin with, and the bytes behind these.
pub(crate) fn scan(form: CommandForm, bytes: &[u8]) -> Scanned<'_>
    ensures counted { result.count ≡ length (commands_in form bytes.now) }
    ensures left { result.left.now ≡ left_in form bytes.now }
{
    let mut count = 0;
    let mut left = bytes;
    'commands: while let Some(size) = next_size(form, left) {
        left = &left[size..];
        count += 1;
    }
    Scanned { count, left }
}

/// What a scan of commands found.
#[derive(Clone, Copy)]
pub(crate) struct Scanned<'a> {
    pub(crate) count: usize,
    pub(crate) left: &'a [u8],
}
