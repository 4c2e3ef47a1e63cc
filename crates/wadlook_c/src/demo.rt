//! The commands of a demo.

ghost use Rattle.std.specs.Prelude.{◌≡◌, OnOk, IfOk, IfErr, drop, length};
ghost use Rattle.demo_lump.specs.Demo as read;
ghost use Rattle.demo_lump.specs.Demo.{IsRead, RefusesDemo};
ghost use Rattle.demo_lump.specs.declared.fault.DemoFault as fault;
ghost use Rattle.wadlook_c.specs.Demos.{TellsCommands, info_of, command_of};
ghost use Rattle.wadlook_c.specs.Status.{demo_number_of};

use crate::status::{DONE, demo_number_of};
use demo_lump::{Command, Demo, DemoFault};

/// What a demo's header says, how many players' commands it has, and how many bytes come after the end marker.
#[repr(C)]
#[derive(Clone, Copy)]
pub struct WadlookDemo {
    pub commands: usize,
    pub after: usize,
    pub players: u32,
    pub version: u8,
    pub skill: u8,
    pub episode: u8,
    pub map: u8,
    pub deathmatch: u8,
    pub respawn: u8,
    pub fast: u8,
    pub no_monsters: u8,
    pub viewpoint: u8,
    pub player1: u8,
    pub player2: u8,
    pub player3: u8,
    pub player4: u8,
}

/// One player's command for one tic.
#[repr(C)]
#[derive(Clone, Copy)]
pub struct WadlookCommand {
    pub turn: u16,
    pub forward: i8,
    pub side: i8,
    pub buttons: u8,
}

/// Writes a demo's header and numbers to `info`, and as many commands as there is room for. It returns 0, or
/// else the status of a refusal.
#[unsafe(no_mangle)]
pub extern "C" fn wadlook_demo(
    bytes: &[u8],
    out: &mut [WadlookCommand],
    info: &mut WadlookDemo,
) -> u32
    ensures done { result ≡ 0 → (demo : read.Demo) × IsRead bytes.now demo × (info.new ≡ info_of demo)
        × TellsCommands demo.commands out.new }
    ensures behind { result ≡ 0 → drop info.new.commands out.new ≡ drop info.new.commands out.old }
    ensures refused { ¬ (result ≡ 0) → (why : fault.DemoFault) × (result ≡ demo_number_of why) × RefusesDemo bytes.now why }
    ensures untouched { ¬ (result ≡ 0) → out.new ≡ out.old }
    ensures info_untouched { ¬ (result ≡ 0) → info.new ≡ info.old }
{
    match Demo::read(bytes) {
        Ok(demo) => {
            *info = told_info(&demo);
            put_commands(&demo, out);
            DONE
        }
        Err(fault) => demo_number_of(fault),
    }
}

fn told_info(demo: &Demo<'_>) -> WadlookDemo
    ensures { result ≡ info_of demo.now }
{
    let header = demo.header();
    let [player1, player2, player3, player4] = header.players;
    WadlookDemo {
        commands: demo.commands(),
        after: demo.after(),
        players: demo.players(),
        version: header.version,
        skill: header.skill,
        episode: header.episode,
        map: header.map,
        deathmatch: header.deathmatch,
        respawn: header.respawn,
        fast: header.fast,
        no_monsters: header.no_monsters,
        viewpoint: header.viewpoint,
        player1,
        player2,
        player3,
        player4,
    }
}

// Writes as many commands as there is room for.
fn put_commands(demo: &Demo<'_>, out: &mut [WadlookCommand])
    ensures told { TellsCommands demo.now.commands out.new }
    ensures behind { drop (length demo.now.commands) out.new ≡ drop (length demo.now.commands) out.old }
{
    for k in 0..out.len() {
        let Some(command) = demo.command(k) else {
            return
        };
        out[k] = told_command(command);
    }
}

fn told_command(command: Command) -> WadlookCommand
    ensures { result ≡ command_of command }
{
    WadlookCommand {
        turn: command.turn,
        forward: command.forward,
        side: command.side,
        buttons: command.buttons,
    }
}
