//! A demo in one object of JSON.

ghost use Rattle.std.specs.Prelude.{◌≡◌, ◌≤◌, ◌++◌, [], codes, false, length, Some};
ghost use Rattle.std.specs.Option.{option_copied};
ghost use Rattle.line_io.specs.Writes.{Writes};
ghost use Rattle.demo_lump.specs.Header.{players_in};
ghost use Rattle.lens_texts.specs.LevelObject.{name_string, number_member};
ghost use Rattle.demo_engines.specs.Objects.{demo_object, engine_member, end_members, footer_member, frame_member, has_rules, is_named, length_members};
ghost use Rattle.demo_engines.specs.Objects.{level_members, lump_member, map_name_member, refused_member, refused_object, rule_members, rules_or_none, text_member};
ghost use Rattle.demo_engines.specs.Objects.{version_members, wrapper_members};
ghost use Rattle.demo_engines.specs.RefusalText.{reason_text};
ghost use Rattle.demo_engines.specs.Summary.{full_tics, game, odd_commands};

use crate::refusal::{DemoRefusal, prepend_reason};
use crate::summary::Heading;
use demo_lump::Header;
use later_demos::{Engine, Footer, LaterDemo, Wrapper};
use le_rec::{Name8, Sink};
use lens_texts::{prepend_number, write_file, write_name, write_number, write_string};
use line_io::{IoFault, TextLine, emit};

/// The most bytes of a footer's text that are told.
const MAX_TEXT: usize = 4096;

/// Writes the object of a demo, with what its footer tells.
pub fn write_object<W: Sink>(
    heading: &Heading<'_>,
    demo: &LaterDemo<'_>,
    footer: &Footer<'_>,
    out: &mut W,
) -> Result<(), IoFault>
    requires { (W.state out.old).failed ≡ false }
    ensures { Writes (W.state out.old) (W.state out.new)
        (demo_object heading.now.path.now heading.now.lump demo.now footer.now) result }
{
    write_file(heading.path, out)?;
    write_lump(heading.lump, out)?;
    write_version(demo, out)?;
    write_members(demo, footer, out)
}

/// Writes the object of a demo that isn't read.
pub fn write_refused_object<W: Sink>(
    heading: &Heading<'_>,
    why: DemoRefusal,
    out: &mut W,
) -> Result<(), IoFault>
    requires { (W.state out.old).failed ≡ false }
    ensures { Writes (W.state out.old) (W.state out.new)
        (refused_object heading.now.path.now heading.now.lump (reason_text why)) result }
{
    write_file(heading.path, out)?;
    write_lump(heading.lump, out)?;
    write_reason(why, out)
}

// `,"refused":<text>}`
fn write_reason<W: Sink>(why: DemoRefusal, out: &mut W) -> Result<(), IoFault>
    requires { (W.state out.old).failed ≡ false }
    ensures { Writes (W.state out.old) (W.state out.new) (refused_member (reason_text why)) result }
{
    let mut line = TextLine::new();
    prepend_reason(&mut line, why);
    emit(out, b",\"refused\":")?;
    write_string(line.as_bytes(), out)?;
    emit(out, b"}\n")
}

// `,"lump":<name>`, where the demo is a lump.
fn write_lump<W: Sink>(lump: Option<Name8>, out: &mut W) -> Result<(), IoFault>
    requires { (W.state out.old).failed ≡ false }
    ensures { Writes (W.state out.old) (W.state out.new) (lump_member lump) result }
{
    match lump {
        None => Ok(()),
        Some(name) => write_named(&name, out),
    }
}

fn write_named<W: Sink>(name: &Name8, out: &mut W) -> Result<(), IoFault>
    requires { (W.state out.old).failed ≡ false }
    ensures { Writes (W.state out.old) (W.state out.new) (lump_member (Some name.now)) result }
{
    emit(out, b",\"lump\":")?;
    write_name(name, out)
}

// The version, and whose it is.
fn write_version<W: Sink>(demo: &LaterDemo<'_>, out: &mut W) -> Result<(), IoFault>
    requires { (W.state out.old).failed ≡ false }
    ensures { Writes (W.state out.old) (W.state out.new) (version_members demo.now) result }
{
    write_number(b"version", u64::from(demo.version()), out)?;
    write_engine(demo.layout().engine, out)?;
    write_wrapper(demo.wrapper(), out)
}

fn write_engine<W: Sink>(engine: Engine, out: &mut W) -> Result<(), IoFault>
    requires { (W.state out.old).failed ≡ false }
    ensures { Writes (W.state out.old) (W.state out.new) (engine_member engine) result }
{
    match engine {
        Engine::Doom => emit(out, b""),
        _ => write_text(b"engine", engine.name().as_bytes(), out),
    }
}

fn write_wrapper<W: Sink>(wrapper: Option<Wrapper>, out: &mut W) -> Result<(), IoFault>
    requires { (W.state out.old).failed ≡ false }
    ensures { Writes (W.state out.old) (W.state out.new) (wrapper_members wrapper) result }
{
    match wrapper {
        None => emit(out, b""),
        Some(Wrapper::Dsda(dsda)) => write_dsda(dsda.version, out),
        Some(Wrapper::PrUm(name)) => write_pr_um(name, out),
    }
}

fn write_dsda<W: Sink>(version: u8, out: &mut W) -> Result<(), IoFault>
    requires { (W.state out.old).failed ≡ false }
    ensures { Writes (W.state out.old) (W.state out.new)
        (text_member (codes "wrapper") (codes "DSDA") ++ number_member (codes "wrapper_version") version) result }
{
    write_text(b"wrapper", b"DSDA", out)?;
    write_number(b"wrapper_version", u64::from(version), out)
}

fn write_pr_um<W: Sink>(name: [u8; 8], out: &mut W) -> Result<(), IoFault>
    requires { (W.state out.old).failed ≡ false }
    ensures { Writes (W.state out.old) (W.state out.new)
        (text_member (codes "wrapper") (codes "PR+UM") ++ (number_member (codes "wrapper_version") 1 ++ map_name_member name)) result }
{
    write_text(b"wrapper", b"PR+UM", out)?;
    write_number(b"wrapper_version", 1, out)?;
    write_map_name(&Name8::stored(name), out)
}

fn write_map_name<W: Sink>(name: &Name8, out: &mut W) -> Result<(), IoFault>
    requires { (W.state out.old).failed ≡ false }
    ensures { Writes (W.state out.old) (W.state out.new) (codes ",\"map_name\":" ++ name_string name.now) result }
{
    emit(out, b",\"map_name\":")?;
    write_name(name, out)
}

// What stands behind the version, and the object's end.
fn write_members<W: Sink>(
    demo: &LaterDemo<'_>,
    footer: &Footer<'_>,
    out: &mut W,
) -> Result<(), IoFault>
    requires { (W.state out.old).failed ≡ false }
    ensures { Writes (W.state out.old) (W.state out.new) (level_members (game demo.now)
        ++ (length_members (players_in (game demo.now).players) (full_tics demo.now) (odd_commands demo.now) (length demo.now.rest)
        ++ (frame_member demo.now.key_frame ++ (rules_or_none demo.now ++ end_members footer.now)))) result }
{
    write_level(&demo.game(), out)?;
    write_length(demo, out)?;
    write_frame(demo.key_frame(), out)?;
    write_rules(demo, out)?;
    write_end(footer, out)
}

fn write_level<W: Sink>(game: &Header, out: &mut W) -> Result<(), IoFault>
    requires { (W.state out.old).failed ≡ false }
    ensures { Writes (W.state out.old) (W.state out.new) (level_members game.now) result }
{
    let mut line = TextLine::new();
    prepend_level(&mut line, game);
    emit(out, line.as_bytes())
}

fn prepend_level(line: &mut TextLine, game: &Header)
    requires { line.old ≡ [] }
    ensures { line.new ≡ level_members game.now }
{
    prepend_number(line, b"map", u64::from(game.map));
    prepend_number(line, b"episode", u64::from(game.episode));
    prepend_number(line, b"skill", u64::from(game.skill));
}

fn write_length<W: Sink>(demo: &LaterDemo<'_>, out: &mut W) -> Result<(), IoFault>
    requires { (W.state out.old).failed ≡ false }
    ensures { Writes (W.state out.old) (W.state out.new)
        (length_members (players_in (game demo.now).players) (full_tics demo.now) (odd_commands demo.now) (length demo.now.rest)) result }
{
    let mut line = TextLine::new();
    prepend_length(&mut line, demo);
    emit(out, line.as_bytes())
}

fn prepend_length(line: &mut TextLine, demo: &LaterDemo<'_>)
    requires { line.old ≡ [] }
    ensures { line.new ≡ length_members (players_in (game demo.now).players) (full_tics demo.now) (odd_commands demo.now) (length demo.now.rest) }
{
    prepend_number(line, b"after", demo.rest().len() as u64);
    prepend_number(line, b"odd", demo.odd_commands() as u64);
    prepend_number(line, b"tics", demo.full_tics() as u64);
    prepend_number(line, b"players", demo.player_count() as u64);
}

fn write_frame<W: Sink>(frame: Option<&[u8]>, out: &mut W) -> Result<(), IoFault>
    requires { (W.state out.old).failed ≡ false }
    ensures { Writes (W.state out.old) (W.state out.new) (frame_member (option_copied frame.entry)) result }
{
    match frame {
        None => emit(out, b""),
        Some(frame) => write_number(b"key_frame", frame.len() as u64, out),
    }
}

// The rules of the game, unless the demo is plainly of Doom 1.9.
fn write_rules<W: Sink>(demo: &LaterDemo<'_>, out: &mut W) -> Result<(), IoFault>
    requires { (W.state out.old).failed ≡ false }
    ensures { Writes (W.state out.old) (W.state out.new) (rules_or_none demo.now) result }
{
    if !has_rules(demo) {
        return emit(out, b"");
    }
    write_rule_members(&demo.game(), out)
}

fn has_rules(demo: &LaterDemo<'_>) -> bool
    ensures { result ≡ has_rules demo.now }
{
    is_named(demo.layout().engine) || demo.wrapper().is_some()
}

fn is_named(engine: Engine) -> bool
    ensures { result ≡ is_named engine }
{
    match engine {
        Engine::Doom => false,
        _ => true,
    }
}

fn write_rule_members<W: Sink>(game: &Header, out: &mut W) -> Result<(), IoFault>
    requires { (W.state out.old).failed ≡ false }
    ensures { Writes (W.state out.old) (W.state out.new) (rule_members game.now) result }
{
    let mut first = TextLine::new();
    prepend_first_rules(&mut first, game);
    let mut last = TextLine::new();
    prepend_last_rules(&mut last, game);
    emit(out, first.as_bytes())?;
    emit(out, last.as_bytes())
}

fn prepend_first_rules(line: &mut TextLine, game: &Header)
    requires { line.old ≡ [] }
    ensures { line.new ≡ number_member (codes "deathmatch") game.now.deathmatch ++ number_member (codes "respawn") game.now.respawn }
{
    prepend_number(line, b"respawn", u64::from(game.respawn));
    prepend_number(line, b"deathmatch", u64::from(game.deathmatch));
}

fn prepend_last_rules(line: &mut TextLine, game: &Header)
    requires { line.old ≡ [] }
    ensures { line.new ≡ number_member (codes "fast") game.now.fast ++ (number_member (codes "nomonsters") game.now.no_monsters
        ++ number_member (codes "viewpoint") game.now.viewpoint) }
{
    prepend_number(line, b"viewpoint", u64::from(game.viewpoint));
    prepend_number(line, b"nomonsters", u64::from(game.no_monsters));
    prepend_number(line, b"fast", u64::from(game.fast));
}

// What the footer tells, and the object's end.
fn write_end<W: Sink>(footer: &Footer<'_>, out: &mut W) -> Result<(), IoFault>
    requires { (W.state out.old).failed ≡ false }
    ensures { Writes (W.state out.old) (W.state out.new) (end_members footer.now) result }
{
    write_footer_text(b"port", footer.port(), out)?;
    write_footer_text(b"words", footer.words(), out)?;
    emit(out, b"}\n")
}

fn write_footer_text<W: Sink>(name: &[u8], text: Option<&[u8]>, out: &mut W) -> Result<(), IoFault>
    requires short { length name.now ≤ 100 }
    requires sound { (W.state out.old).failed ≡ false }
    ensures { Writes (W.state out.old) (W.state out.new) (footer_member name.now (option_copied text.entry)) result }
{
    match text {
        None => emit(out, b""),
        Some(text) => write_text(name, &text[..text.len().min(MAX_TEXT)], out),
    }
}

// `,"engine":"Boom"`
fn write_text<W: Sink>(name: &[u8], text: &[u8], out: &mut W) -> Result<(), IoFault>
    requires short { length name.now ≤ 100 }
    requires sound { (W.state out.old).failed ≡ false }
    ensures { Writes (W.state out.old) (W.state out.new) (text_member name.now text.now) result }
{
    let mut line = TextLine::new();
    line.prepend_bytes(b"\":");
    line.prepend_bytes(name);
    line.prepend_bytes(b",\"");
    emit(out, line.as_bytes())?;
    write_string(text, out)
}
