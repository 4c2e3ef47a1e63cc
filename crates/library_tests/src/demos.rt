//! Demos written, and refused by their headers.

ghost use Rattle.std.specs.Prelude.{◌≡◌, ◌<◌, ◌≤◌, All};
ghost use Rattle.demo_lump.specs.Header.{players_in};
ghost use Rattle.demo_lump.specs.Writable.{IsWritable};

use crate::compare::{check_bytes, check_same};
use demo_lump::{Command, Demo, DemoFault, Header, write_demo};
use std::process::Abort;
use std::test::Fail;
use test_refusals::Refusing;

// Two commands of one player, the marker and one byte behind it.
pub(crate) const TWO: [u8; 23] = [
    109, 3, 1, 1, 0, 0, 0, 0, 0, 1, 0, 0, 0, 25, 0, 0, 0, 206, 128, 255, 128, 128, 7,
];

// The same commands in the long form, with whole turns.
pub(crate) const LONG: [u8; 24] = [
    111, 3, 1, 1, 0, 0, 0, 0, 0, 1, 0, 0, 0, 25, 0, 52, 18, 0, 206, 128, 255, 255, 128, 128,
];

pub(crate) fn header_of(version: u8) -> Header
    ensures version { result.version ≡ version }
    ensures players { 0 < players_in result.players }
{
    Header {
        version,
        skill: 3,
        episode: 1,
        map: 1,
        deathmatch: 0,
        respawn: 0,
        fast: 0,
        no_monsters: 0,
        viewpoint: 0,
        players: [1, 0, 0, 0],
    }
}

pub(crate) fn command_of(forward: i8, side: i8, turn: u16, buttons: u8) -> Command
    ensures forward { result.forward ≡ forward }
    ensures turn { result.turn ≡ turn }
{
    Command {
        forward,
        side,
        turn,
        buttons,
    }
}

// The commands of the two demos.
fn two_commands() -> [Command; 2]
    ensures { All (IsWritable 109) result }
{
    [command_of(25, 0, 0, 0), command_of(-50, -128, 255, 128)]
}

fn long_commands() -> [Command; 2]
    ensures { All (IsWritable 111) result }
{
    [
        command_of(25, 0, 4660, 0),
        command_of(-50, -128, 65535, 128),
    ]
}

// Compares the bytes of a demo of these commands with what is expected.
fn check_written(
    rt: &(impl Abort + AllocGlobal),
    version: u8,
    commands: &[Command],
    bytes: &[u8],
) -> Result<(), Fail>
    requires known { 109 ≤ version × version ≤ 111 }
    requires commands { All (IsWritable version) commands.now }
{
    let written = write_demo(rt.alloc(), &header_of(version), commands)?;
    check_bytes(rt, written.as_slice(), bytes);
    Ok(())
}

#[test]
fn demo_written(rt: HostRuntime) -> Result<(), Fail> {
    check_written(&rt, 109, &two_commands(), &TWO[..22])?;
    check_written(&rt, 111, &long_commands(), &LONG)?;
    let none = [109, 3, 1, 1, 0, 0, 0, 0, 0, 1, 0, 0, 0, 128];
    check_written(&rt, 109, &[], &none)
}

// What is read of a demo: its commands' count, its full tics, the odd commands and the bytes behind the marker.
fn counts_of(rt: &impl Abort, bytes: &[u8]) -> [usize; 4] {
    let demo = Demo::read(bytes).expect(rt, "a demo");
    [
        demo.commands(),
        demo.full_tics(),
        demo.odd_commands(),
        demo.after(),
    ]
}

// Two players, with two commands and with three.
const TWO_PLAYERS: [u8; 23] = [
    109, 3, 1, 1, 0, 0, 0, 0, 0, 1, 1, 0, 0, 25, 0, 0, 0, 206, 128, 255, 128, 128, 7,
];

const THREE_OF_TWO: [u8; 27] = [
    109, 3, 1, 1, 0, 0, 0, 0, 0, 1, 1, 0, 0, 25, 0, 0, 0, 206, 128, 255, 128, 1, 2, 3, 4, 128, 7,
];

#[test]
fn demo_two_players(rt: HostRuntime) {
    check_same(&rt, counts_of(&rt, &TWO_PLAYERS), [2, 1, 0, 1]);
    check_same(&rt, counts_of(&rt, &THREE_OF_TWO), [3, 1, 1, 1]);
}

// A demo without commands of version 108, and one of no player.
const OF_108: [u8; 14] = [108, 3, 1, 1, 0, 0, 0, 0, 0, 1, 0, 0, 0, 128];

const OF_NOBODY: [u8; 14] = [109, 3, 1, 1, 0, 0, 0, 0, 0, 0, 0, 0, 0, 128];

// Why the bytes are no demo.
fn check_refused(rt: &impl Abort, bytes: &[u8], expected: DemoFault) {
    check_same(rt, Demo::read(bytes).err(), Some(expected));
}

// The version is looked at before the players are.
#[test]
fn demo_refused_by_its_header(rt: HostRuntime) {
    check_refused(&rt, &OF_108, DemoFault::Version(108));
    check_refused(&rt, &OF_108[..1], DemoFault::Version(108));
    check_refused(&rt, &OF_NOBODY, DemoFault::NoPlayers);
    check_refused(&rt, &OF_NOBODY[..12], DemoFault::ShortHeader);
}

// Compares a command of a demo with what is expected.
fn check_command(rt: &impl Abort, demo: &Demo<'_>, index: usize, expected: Option<Command>) {
    check_same(rt, demo.command(index), expected);
}

// What is written of the two commands is read as them, and nothing is left behind the marker.
#[test]
fn demo_written_is_read(rt: HostRuntime) -> Result<(), Fail> {
    let written = write_demo(rt.alloc(), &header_of(109), &two_commands())?;
    let demo = Demo::read(&written).expect(&rt, "a demo");
    check_same(&rt, demo.header(), header_of(109));
    check_command(&rt, &demo, 0, Some(command_of(25, 0, 0, 0)));
    check_command(&rt, &demo, 1, Some(command_of(-50, -128, 255, 128)));
    check_command(&rt, &demo, 2, None);
    check_same(&rt, demo.after(), 0);
    Ok(())
}

// Whether writing met growth `n` refused; else the demo is written.
fn is_refused(rt: &(impl Abort + AllocGlobal), n: u64) -> bool {
    let heap = Refusing::new(rt.alloc(), n);
    match write_demo(&heap, &header_of(109), &two_commands()) {
        Ok(bytes) => check_bytes(rt, bytes.as_slice(), &TWO[..22]),
        Err(_) => {
            assert!(rt; heap.has_refused());
            return true;
        }
    }
    assert!(rt; !heap.has_refused());
    false
}

// It asks for one growth.
#[test]
fn growth_refused_in_write_demo(rt: HostRuntime) {
    assert!(rt; is_refused(&rt, 1));
    assert!(rt; !is_refused(&rt, 2));
}
