//! The command `lmp`: the listing of the demo that an input is, line by line as its bytes come.

ghost use Rattle.std.specs.Prelude.{◌≡◌, ◌<◌, ◌≤◌, false, List, ℕ, None, Some, length};
ghost use Rattle.std.specs.Io.KnownBytes.{Consumes};
ghost use Rattle.demo_lump.specs.Header.{IsHeader, players_in};
ghost use Rattle.le_rec.specs.Source.{SourceState};
ghost use Rattle.look_engines.specs.Engines.Lmp.{ListsCommands, ListsDemo, RunsLmp};

use crate::fault::{RunFault, ended};
use crate::listing::{prepend_header, prepend_ticcmd, prepend_totals};
use crate::turn::PlayerTurn;
use demo_lump::{DemoReader, Header};
use le_rec::{Sink, Source};
use line_io::{MAX_READ, TextLine, emit};

/// Lists the demo that is the whole input, of at most `limit` bytes, while it reads. It takes no memory.
///
/// After `Read`, `TooLong` or `Demo` the lines of the header and of all whole tic commands that were read are written.
pub fn lmp<S: Source, W: Sink>(input: &mut S, limit: u64, out: &mut W) -> Result<(), RunFault>
    requires limit { limit ≤ MAX_READ }
    requires input { (S.state input.old).failed ≡ false }
    requires out { (W.state out.old).failed ≡ false }
    ensures { RunsLmp S.state W.state limit input.old input.new out.old out.new result }
{
    let mut reader = DemoReader::new(limit);
    let header = reader.header(input)?;
    list_demo(&mut reader, &header, input, limit, out)
}

// Lists the demo behind the header that was read.
fn list_demo<S: Source, W: Sink>(
    reader: &mut DemoReader,
    header: &Header,
    input: &mut S,
    limit: u64,
    out: &mut W,
) -> Result<(), RunFault>
    requires limit { limit ≤ MAX_READ }
    requires input { (S.state input.old).failed ≡ false }
    requires out { (W.state out.old).failed ≡ false }
    requires some { 0 < players_in header.now.players }
    requires going { reader.old.fault ≡ None }
    requires begun { reader.old.ended ≡ false }
    requires same { reader.old.header ≡ Some header.now }
    requires bound { reader.old.limit ≡ limit }
    requires room { reader.old.taken ≤ limit }
    ensures { (front : List ℕ) (start : SourceState) → IsHeader front header.now → reader.old.taken ≡ length front
        → reader.old.counted ≡ None → Consumes start.left (S.state input.old).left front
        → ListsDemo limit start (S.state input.new) (W.state out.old) (W.state out.new) result }
{
    let mut line = TextLine::new();
    prepend_header(&mut line, header);
    emit(out, line.as_bytes())?;
    let turn = list_ticcmds(reader, header, input, limit, out)?;
    let after = reader.after(input)?;
    line.clear();
    prepend_totals(&mut line, turn.tic(), turn.odd(), after);
    ended(emit(out, line.as_bytes()))
}

// Lists the tic commands up to the marker, and returns whose turn it would be there.
fn list_ticcmds<S: Source, W: Sink>(
    reader: &mut DemoReader,
    header: &Header,
    input: &mut S,
    limit: u64,
    out: &mut W,
) -> Result<PlayerTurn, RunFault>
    requires limit { limit ≤ MAX_READ }
    requires input { (S.state input.old).failed ≡ false }
    requires out { (W.state out.old).failed ≡ false }
    requires some { 0 < players_in header.now.players }
    requires going { reader.old.fault ≡ None }
    requires begun { reader.old.ended ≡ false }
    requires same { reader.old.header ≡ Some header.now }
    requires bound { reader.old.limit ≡ limit }
    requires room { reader.old.taken ≤ limit }
    ensures { ListsCommands header.now limit (S.state input.old) (S.state input.new)
        (W.state out.old) (W.state out.new) reader.old reader.new result }
{
    let mut line = TextLine::new();
    let mut turn = PlayerTurn::new(header.players);
    // A tic command has 4 bytes or 5, so there are fewer turns than bytes.
    'commands: for _turn in 0..limit + 1 {
        let Some(command) = reader.next(input)? else {
            return Ok(turn);
        };
        line.clear();
        prepend_ticcmd(&mut line, turn.tic(), turn.player(), &command);
        emit(out, line.as_bytes())?;
        turn.step();
    }
    unreachable!()
}
