//! A demo in memory.

ghost use Rattle.std.specs.Prelude.{◌≡◌, ◌≢◌, ℕ, ◌/◌, ◌%◌, ◌<◌, ◌≤◌, ◌^◌, ◌↔◌, List, ◌∷◌, length};
ghost use Rattle.std.specs.Prelude.{take, slice_get, slice_index, IfOk, IfErr, IsTrue, MatchOption};
ghost use Rattle.demo_lump.specs.Header.{IsHeader, RefusesHeader, players_in};
ghost use Rattle.demo_lump.specs.Scanning.{Scans};

use crate::command::{Command, MARKER, command_from, size_of_command};
use crate::fault::DemoFault;
use crate::header::{HEADER, Header, count_players, is_version, read_fields};
use std::marker::Model;

/// A demo. It borrows the bytes, and reads a command when it is asked for.
#[derive(Drop)]
pub struct Demo<'a> {
    header: Header,
    commands: &'a [u8],
    count: usize,
    after: usize,
}

impl<'a> Model for Demo<'a> {
    ghost use Rattle.std.specs.Prelude.{◌*◌, ◌<◌, ◌≤◌, length};
    ghost use Rattle.demo_lump.specs.Command.{command_size};
    ghost use Rattle.demo_lump.specs.Demo as demo;
    ghost use Rattle.demo_lump.specs.Header.{players_in};
    ghost use Rattle.demo_lump.specs.Scanning.{commands_of};

    ghost Value = { demo.Demo };

    ghost view = { λ d. record {
      header = d.header;
      commands = commands_of d.header.version d.count d.commands.now;
      after = d.after;
    } };

    ghost invariant = { λ d. (0 < players_in d.header.players)
        × (d.count * command_size d.header.version ≤ length d.commands.now) };
}

impl<'a> Demo<'a> {
    ghost use Rattle.demo_lump.specs.Demo as demo;
    ghost use Rattle.demo_lump.specs.Demo.{IsRead, RefusesDemo};

    /// The demo in the bytes, up to the first marker in place of a command. What follows the marker
    /// is accepted and counted.
    pub fn read(bytes: &'a [u8]) -> Result<Demo<'a>, DemoFault>
        ensures ok { (found : demo.Demo) → (result ≡ Ok found) ↔ IsRead bytes.now found }
        ensures refused { (fault : _) → (result ≡ Err fault) ↔ RefusesDemo bytes.now fault }
    {
        let header = read_header(bytes)?;
        let commands = &bytes[HEADER..];
        let (count, rest) = scan(header.version, commands);
        match behind_marker(rest) {
            Some(after) => Ok(Demo {
                header,
                commands,
                count,
                after: after.len(),
            }),
            None => Err(DemoFault::NoMarker((bytes.len() - rest.len()) as u64)),
        }
    }

    /// The header.
    pub fn header(&self) -> Header
        ensures header { result ≡ self.now.header }
        ensures some { 0 < players_in self.now.header.players }
    {
        self.header
    }

    /// How many players are in the game.
    pub fn players(&self) -> u32
        ensures { result ≡ players_in self.now.header.players }
    {
        count_players(&self.header.players) as u32
    }

    /// The number of commands.
    pub fn commands(&self) -> usize
        ensures commands { result ≡ length self.now.commands }
        ensures bound { result < 2 ^ 62 }
    {
        self.count
    }

    /// The command of a number, counted from 0.
    pub fn command(&self, index: usize) -> Option<Command>
        ensures { result ≡ slice_get self.now.commands index }
    {
        if index >= self.count {
            return None;
        }
        let size = size_of_command(self.header.version);
        let start = index * size;
        let part = &self.commands[start..start + size];
        Some(command_from(self.header.version, part[0], &part[1..]))
    }

    /// The tics in which each player has a command.
    pub fn full_tics(&self) -> usize
        ensures { result ≡ length self.now.commands / players_in self.now.header.players }
    {
        self.count / count_players(&self.header.players)
    }

    /// The commands after the last full tic.
    pub fn odd_commands(&self) -> usize
        ensures { result ≡ length self.now.commands % players_in self.now.header.players }
    {
        self.count % count_players(&self.header.players)
    }

    /// The bytes after the marker.
    pub fn after(&self) -> usize
        ensures { result ≡ self.now.after }
    {
        self.after
    }
}

fn read_header(bytes: &[u8]) -> Result<Header, DemoFault>
    ensures ok { IfOk result (λ header. IsHeader (take HEADER bytes.now) header) }
    ensures refused { IfErr result (λ fault. RefusesHeader bytes.now fault) }
{
    let Some(version) = bytes.first() else {
        return Err(DemoFault::Empty);
    };
    if !is_version(*version) {
        return Err(DemoFault::Version(*version));
    }
    if bytes.len() < HEADER {
        return Err(DemoFault::ShortHeader);
    }
    read_fields(*version, &bytes[1..HEADER])
}

// Whether the bytes begin with a command.
fn begins_command(size: usize, bytes: &[u8]) -> bool
    requires { 0 < size }
    ensures { IsTrue result ↔ ((size ≤ length bytes.now) × (slice_index bytes.now 0 ≢ MARKER)) }
{
    size <= bytes.len() && bytes[0] != MARKER
}

// How many commands the bytes begin with, and the bytes behind these.
fn scan(version: u8, bytes: &[u8]) -> (usize, &[u8])
    ensures { Scans version bytes.now result.0 result.1.now }
{
    let size = size_of_command(version);
    let mut count = 0;
    let mut rest = bytes;
    'commands: while begins_command(size, rest) {
        rest = &rest[size..];
        count += 1;
    }
    (count, rest)
}

// The bytes behind the marker, where the bytes begin with it.
fn behind_marker(bytes: &[u8]) -> Option<&[u8]>
    ensures { MatchOption result ((more : List ℕ) → bytes.now ≢ MARKER ∷ more)
        (λ more. bytes.now ≡ MARKER ∷ more.now) }
{
    match bytes.split_first() {
        Some((&MARKER, rest)) => Some(rest),
        _ => None,
    }
}
