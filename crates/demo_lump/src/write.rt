//! The bytes of a demo.

ghost use Rattle.std.specs.Prelude.{◌≡◌, ◌<◌, ◌+◌, ◌*◌, [], All, IfOk, length};
ghost use Rattle.demo_lump.specs.Command.{IsCommand, command_size};
ghost use Rattle.demo_lump.specs.Demo.{AreCommands, IsDemo, IsRead};
ghost use Rattle.demo_lump.specs.Header.{IsHeader, IsVersion, players_in};
ghost use Rattle.demo_lump.specs.Writable.{IsWritable};

use crate::command::{Command, LONG, MARKER, size_of_command};
use crate::header::{HEADER, Header};
use std::alloc::{AllocError, Allocator};

/// The demo of a header and commands: their bytes and the marker, and nothing more. It first makes
/// room for all of it, and nothing else can fail.
pub fn write_demo<A: Allocator>(
    alloc: A,
    header: &Header,
    commands: &[Command],
) -> Result<Vec<u8, A>, AllocError>
    requires version { IsVersion header.now.version }
    requires players { 0 < players_in header.now.players }
    requires writable { All (IsWritable header.now.version) commands.now }
    ensures demo { IfOk result (λ bytes. IsDemo bytes.items header.now commands.now []) }
    ensures read { IfOk result (λ bytes. IsRead bytes.items
        (record { header = header.now; commands = commands.now; after = 0 })) }
{
    let size = HEADER + commands.len() * size_of_command(header.version) + 1;
    let mut bytes = vec![in alloc; 0; size]?;
    put_demo(&mut bytes, header, commands);
    Ok(bytes)
}

fn put_demo(bytes: &mut [u8], header: &Header, commands: &[Command])
    requires room { length bytes.old
        ≡ HEADER + length commands.now * command_size header.now.version + 1 }
    requires version { IsVersion header.now.version }
    requires players { 0 < players_in header.now.players }
    requires writable { All (IsWritable header.now.version) commands.now }
    ensures { IsDemo bytes.new header.now commands.now [] }
{
    let end = bytes.len() - 1;
    put_header(&mut bytes[..HEADER], header);
    put_commands(&mut bytes[HEADER..end], header.version, commands);
    bytes[end] = MARKER;
}

fn put_header(bytes: &mut [u8], header: &Header)
    requires room { length bytes.old ≡ HEADER }
    requires version { IsVersion header.now.version }
    requires players { 0 < players_in header.now.players }
    ensures { IsHeader bytes.new header.now }
{
    bytes.copy_from_slice(&[
        header.version,
        header.skill,
        header.episode,
        header.map,
        header.deathmatch,
        header.respawn,
        header.fast,
        header.no_monsters,
        header.viewpoint,
        header.players[0],
        header.players[1],
        header.players[2],
        header.players[3],
    ]);
}

fn put_commands(bytes: &mut [u8], version: u8, commands: &[Command])
    requires room { length bytes.old ≡ length commands.now * command_size version }
    requires writable { All (IsWritable version) commands.now }
    ensures { AreCommands version bytes.new commands.now }
{
    let size = size_of_command(version);
    let mut at = 0;
    for command in commands {
        put_command(&mut bytes[at..at + size], version, *command);
        at += size;
    }
}

fn put_command(bytes: &mut [u8], version: u8, command: Command)
    requires room { length bytes.old ≡ command_size version }
    requires writable { IsWritable version command }
    ensures { IsCommand version bytes.new command }
{
    let forward = command.forward.cast_unsigned();
    let side = command.side.cast_unsigned();
    let low = (command.turn % 256) as u8;
    if version == LONG {
        let high = (command.turn / 256) as u8;
        bytes.copy_from_slice(&[forward, side, low, high, command.buttons]);
    } else {
        bytes.copy_from_slice(&[forward, side, low, command.buttons]);
    }
}
