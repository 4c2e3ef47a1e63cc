//! The command `demo`: the listing of a demo in a lump.

ghost use Rattle.std.specs.Prelude.{◌≡◌, ◌≤◌, false, length, map, IfOk, IfErr};
ghost use Rattle.line_io.specs.Writes.{Writes};
ghost use Rattle.wad_dir.specs.declared.set.TheConstants.{MAX_FILES};
ghost use Rattle.look_engines.specs.Listing.{listing};
ghost use Rattle.look_engines.specs.Engines.Demo.{IsNamedDemo, RefusesNamedDemo, RunsDemo};

use crate::fault::{RunFault, ended};
use crate::listing::{prepend_header, prepend_ticcmd, prepend_totals};
use crate::opening::open_set;
use crate::turn::PlayerTurn;
use demo_lump::Demo;
use le_rec::{Name8, Sink};
use line_io::{IoFault, TextLine, emit};
use std::alloc::Allocator;
use wad_dir::{AsBytes, LumpFault};

/// Writes the listing of the demo in the lump of the name: the header, a line for each tic command and the totals. `Set`,
/// `Memory`, `Lump` (`NoSuch` where no entry has the name) and `Demo` come before anything is written.
pub fn demo_text<A: Allocator, F: AsBytes, W: Sink>(
    alloc: A,
    files: &[F],
    name: &[u8],
    out: &mut W,
) -> Result<(), RunFault>
    requires few { length files.now ≤ MAX_FILES }
    requires sound { (W.state out.old).failed ≡ false }
    ensures { RunsDemo W.state (map F.bytes files.now) name.now out.old out.new result }
{
    let demo = named_demo(alloc, files, name)?;
    ended(write_demo(&demo, out))
}

// The demo in the lump of the name.
fn named_demo<'a, A: Allocator, F: AsBytes>(
    alloc: A,
    files: &'a [F],
    name: &[u8],
) -> Result<Demo<'a>, RunFault>
    requires { length files.now ≤ MAX_FILES }
    ensures ok { IfOk result (IsNamedDemo (map F.bytes files.now) name.now) }
    ensures err { IfErr result (RefusesNamedDemo (map F.bytes files.now) name.now) }
{
    let set = open_set(alloc, files)?;
    let Some(g) = set.find(Name8::query(name)) else {
        return Err(RunFault::Lump(LumpFault::NoSuch));
    };
    let lump = match set.lump(g) {
        Ok(lump) => lump,
        Err(fault) => return Err(RunFault::Lump(fault)),
    };
    match Demo::read(lump) {
        Ok(demo) => Ok(demo),
        Err(fault) => Err(RunFault::Demo(fault)),
    }
}

/// Writes the listing of a demo. `Write` is the one fault.
pub fn write_demo<W: Sink>(demo: &Demo<'_>, out: &mut W) -> Result<(), IoFault>
    requires { (W.state out.old).failed ≡ false }
    ensures { Writes (W.state out.old) (W.state out.new) (listing demo.now) result }
{
    let mut line = TextLine::new();
    prepend_header(&mut line, &demo.header());
    emit(out, line.as_bytes())?;
    let mut turn = PlayerTurn::new(demo.header().players);
    'commands: for i in 0..demo.commands() {
        let Some(command) = demo.command(i) else {
            break
        };
        line.clear();
        prepend_ticcmd(&mut line, turn.tic(), turn.player(), &command);
        emit(out, line.as_bytes())?;
        turn.step();
    }
    line.clear();
    let odd = demo.odd_commands() as u64;
    prepend_totals(&mut line, demo.full_tics() as u64, odd, demo.after() as u64);
    emit(out, line.as_bytes())
}
