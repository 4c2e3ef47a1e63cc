//! A demo in one line.

ghost use Rattle.std.specs.Prelude.{◌≡◌, ◌+◌, ◌<◌, ◌≤◌, ◌++◌, [], false, length};
ghost use Rattle.std.specs.Option.{option_copied};
ghost use Rattle.line_io.specs.Writes.{Writes};
ghost use Rattle.demo_lump.specs.Header.{players_in};
ghost use Rattle.demo_engines.specs.Summary.{demo_line, engine_text, frame_text, full_tics, game_text, length_text, level_text, lump_text, odd_commands};
ghost use Rattle.demo_engines.specs.Summary.{players_text, rest_text, some_text, time_text, two_digits, wrapper_text};

use demo_lump::Header;
use later_demos::{Engine, LaterDemo, Wrapper};
use le_rec::{Name8, Sink};
use lens_texts::write_path;
use line_io::{IoFault, TextLine, emit};

/// What each line or object of a demo begins with.
#[derive(Clone, Copy)]
pub struct Heading<'p> {
    /// The file's path.
    pub path: &'p [u8],
    /// The lump's name, where the file is a WAD file.
    pub lump: Option<Name8>,
}

/// Writes the line of a demo.
pub fn write_summary<W: Sink>(
    heading: &Heading<'_>,
    demo: &LaterDemo<'_>,
    out: &mut W,
) -> Result<(), IoFault>
    requires { (W.state out.old).failed ≡ false }
    ensures { Writes (W.state out.old) (W.state out.new) (demo_line heading.now.path.now heading.now.lump demo.now) result }
{
    let mut line = TextLine::new();
    prepend_game(&mut line, demo);
    prepend_lump(&mut line, heading.lump);
    line.prepend_bytes(b": ");
    write_path(heading.path, out)?;
    emit(out, line.as_bytes())?;
    write_length(demo, out)
}

// Writes how long a demo lasts, and what is left over.
fn write_length<W: Sink>(demo: &LaterDemo<'_>, out: &mut W) -> Result<(), IoFault>
    requires { (W.state out.old).failed ≡ false }
    ensures { Writes (W.state out.old) (W.state out.new)
        (length_text (full_tics demo.now) ++ rest_text demo.now.key_frame (odd_commands demo.now) (length demo.now.rest)) result }
{
    let mut length = TextLine::new();
    prepend_length(&mut length, demo.full_tics() as u64);
    let mut rest = TextLine::new();
    prepend_rest(&mut rest, demo);
    emit(out, length.as_bytes())?;
    emit(out, rest.as_bytes())
}

/// Puts `LUMP: ` before the line, where the demo is a lump.
pub fn prepend_lump(line: &mut TextLine, lump: Option<Name8>)
    requires { length line.old ≤ 106 }
    ensures text { line.new ≡ lump_text lump ++ line.old }
    ensures length { length line.new ≤ length line.old + 34 }
{
    let Some(name) = lump else {
        return;
    };
    let mut shown = [0; 32];
    let len = name.shown(&mut shown);
    line.prepend_bytes(b": ");
    line.prepend_bytes(&shown[..len]);
}

// Puts what the header says before the line.
fn prepend_game(line: &mut TextLine, demo: &LaterDemo<'_>)
    requires { line.old ≡ [] }
    ensures text { line.new ≡ game_text demo.now }
    ensures length { length line.new ≤ 106 }
{
    let game = demo.game();
    prepend_level(line, &game, demo.player_count());
    prepend_wrapper(line, demo.wrapper());
    prepend_engine(line, demo.layout().engine);
    line.prepend_small(game.version);
    line.prepend_bytes(b"version ");
}

// `, skill 3, episode 1, map 4, 1 player`
fn prepend_level(line: &mut TextLine, game: &Header, players: usize)
    requires empty { line.old ≡ [] }
    requires players { players ≡ players_in game.now.players }
    ensures text { line.new ≡ level_text game.now }
    ensures length { length line.new ≤ 66 }
{
    prepend_players(line, players);
    line.prepend_bytes(b", ");
    line.prepend_small(game.map);
    line.prepend_bytes(b", map ");
    line.prepend_small(game.episode);
    line.prepend_bytes(b", episode ");
    line.prepend_small(game.skill);
    line.prepend_bytes(b", skill ");
}

// ` in DSDA 2`
fn prepend_wrapper(line: &mut TextLine, wrapper: Option<Wrapper>)
    requires { length line.old ≤ 66 }
    ensures text { line.new ≡ wrapper_text wrapper ++ line.old }
    ensures length { length line.new ≤ length line.old + 12 }
{
    match wrapper {
        None => {}
        Some(Wrapper::Dsda(dsda)) => {
            line.prepend_small(dsda.version);
            line.prepend_bytes(b" in DSDA ");
        }
        Some(Wrapper::PrUm(_)) => line.prepend_bytes(b" in PR+UM 1"),
    }
}

// ` (Boom)`
fn prepend_engine(line: &mut TextLine, engine: Engine)
    requires { length line.old ≤ 78 }
    ensures text { line.new ≡ engine_text engine ++ line.old }
    ensures length { length line.new ≤ length line.old + 13 }
{
    match engine {
        Engine::Doom => {}
        _ => {
            line.prepend_bytes(b")");
            line.prepend_bytes(engine.name().as_bytes());
            line.prepend_bytes(b" (");
        }
    }
}

// `1 player`, `2 players`
fn prepend_players(line: &mut TextLine, players: usize)
    requires { line.old ≡ [] }
    ensures text { line.new ≡ players_text players }
    ensures length { length line.new ≤ 28 }
{
    line.prepend_bytes(if players == 1 {
        b" player"
    } else {
        b" players"
    });
    line.prepend_natural(players as u64);
}

// `, 1531 tics, 0:43.74`
fn prepend_length(line: &mut TextLine, tics: u64)
    requires { line.old ≡ [] }
    ensures { line.new ≡ length_text tics }
{
    prepend_time(line, tics);
    line.prepend_bytes(b" tics, ");
    line.prepend_natural(tics);
    line.prepend_bytes(b", ");
}

// What is left over.
fn prepend_rest(line: &mut TextLine, demo: &LaterDemo<'_>)
    requires { line.old ≡ [] }
    ensures { line.new ≡ rest_text demo.now.key_frame (odd_commands demo.now) (length demo.now.rest) }
{
    line.prepend_bytes(b"\n");
    prepend_some(line, b", after ", demo.rest().len() as u64);
    prepend_some(line, b", odd ", demo.odd_commands() as u64);
    prepend_frame(line, demo.key_frame());
}

// `, key frame 99675`
fn prepend_frame(line: &mut TextLine, frame: Option<&[u8]>)
    requires { length line.old ≤ 60 }
    ensures { line.new ≡ frame_text (option_copied frame.entry) ++ line.old }
{
    let Some(frame) = frame else {
        return;
    };
    line.prepend_natural(frame.len() as u64);
    line.prepend_bytes(b", key frame ");
}

// Puts a number behind its label before the line, where it isn't 0.
fn prepend_some(line: &mut TextLine, label: &[u8], number: u64)
    requires room { length line.old ≤ 100 }
    requires short { length label.now ≤ 8 }
    ensures text { line.new ≡ some_text label.now number ++ line.old }
    ensures length { length line.new ≤ length line.old + 28 }
{
    if number == 0 {
        return;
    }
    line.prepend_natural(number);
    line.prepend_bytes(label);
}

// `0:43.74`
fn prepend_time(line: &mut TextLine, tics: u64)
    requires { length line.old ≤ 100 }
    ensures text { line.new ≡ time_text tics ++ line.old }
    ensures length { length line.new ≤ length line.old + 30 }
{
    prepend_two_digits(line, (tics % 35 * 100 / 35) as u8);
    line.prepend_bytes(b".");
    prepend_two_digits(line, (tics / 35 % 60) as u8);
    line.prepend_bytes(b":");
    line.prepend_natural(tics / 2100);
}

fn prepend_two_digits(line: &mut TextLine, number: u8)
    requires few { number < 100 }
    requires room { length line.old ≤ 120 }
    ensures text { line.new ≡ two_digits number ++ line.old }
    ensures length { length line.new ≤ length line.old + 4 }
{
    line.prepend_small(number);
    if number < 10 {
        line.prepend_bytes(b"0");
    }
}
