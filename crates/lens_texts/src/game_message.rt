//! What is told of what the released game does with a level.

ghost use Rattle.std.specs.Prelude.{◌≡◌, ◌+◌, ◌≤◌, ◌++◌, [], codes, length};
ghost use Rattle.std.specs.Fmt.{decimal};
ghost use Rattle.game_warnings.specs.Misplaced.{flat_of};
ghost use Rattle.game_warnings.specs.declared.warning.GameWarning.TheVariants as game;
ghost use Rattle.lens_texts.specs.GameMessage.{barrier_text, count_text, game_message, harm_text, key_text, kind_text, linedef_special_text, locked_text, misplaced_text};
ghost use Rattle.lens_texts.specs.GameMessage.{sector_special_text, skills_text, surface_text, tag_number};
ghost use Rattle.lens_texts.specs.Label.{named_text};

use crate::digits::{prepend_count, prepend_word};
use crate::label::prepend_named;
use game_numbers::Key;
use game_warnings::{Barrier, GameWarning, Harm, Skills, Surface};
use le_rec::Sector;
use line_io::TextLine;
use map_level::Level;

/// Puts what the game does into the line.
pub fn prepend_game_message(line: &mut TextLine, level: &Level<'_>, warning: GameWarning)
    requires { line.old ≡ [] }
    ensures { line.new ≡ game_message level.now warning line.old }
{
    match warning {
        GameWarning::UnknownSpecial { linedef } => {
            line.prepend_bytes(b" is none of the game's");
            prepend_special(line, level, linedef);
        }
        GameWarning::ZeroTag { linedef, sectors } => {
            prepend_counted(line, sectors, b" sectors have");
            line.prepend_bytes(b" with tag 0, which ");
            prepend_special(line, level, linedef);
        }
        GameWarning::NeverCrossed { linedef, barrier } => {
            prepend_barrier(line, barrier);
            prepend_special(line, level, linedef);
        }
        GameWarning::NoDestination { linedef } => prepend_no_destination(line, level, linedef),
        GameWarning::OneSidedDoor { linedef } => {
            line.prepend_bytes(b" without a back sidedef: its use ends the game");
            prepend_special(line, level, linedef);
        }
        GameWarning::ManyPlatforms { linedef, platforms } => {
            prepend_counted(
                line,
                platforms,
                b" platforms, 30 are the most: it ends the game",
            );
            line.prepend_bytes(b" starts ");
            prepend_special(line, level, linedef);
        }
        GameWarning::ManyCeilings { linedef, ceilings } => {
            prepend_counted(line, ceilings, b" ceilings, 30 are the most");
            line.prepend_bytes(b" starts ");
            prepend_special(line, level, linedef);
        }
        GameWarning::Harmful { linedef, harm } => {
            prepend_harm(line, harm);
            prepend_special(line, level, linedef);
        }
        GameWarning::DeadlyFloor { sector } => prepend_deadly_floor(line, level, sector),
        GameWarning::NoExit => line.prepend_bytes(b"no exit"),
        GameWarning::Locked {
            key,
            linedefs,
            skills,
        } => prepend_locked(line, key, linedefs, skills),
        GameWarning::EndsThings { thing, follow } => prepend_ending(line, level, thing, follow),
        GameWarning::InNoSkill { .. } => line.prepend_bytes(b"appears in no skill"),
        GameWarning::NoTarget { skills, .. } => {
            prepend_shot(line, skills);
            line.prepend_bytes(b"has no target (type 87) in ");
        }
        GameWarning::ManyTargets { skills, .. } => {
            prepend_shot(line, skills);
            line.prepend_bytes(b"has more than 32 targets in ");
        }
        GameWarning::ManyScrolling { linedefs } => {
            prepend_counted(line, linedefs, b" scrolling linedefs, 64 are the most");
        }
        GameWarning::ManyPerpetual { sectors } => {
            prepend_counted(line, sectors, b" perpetual platforms, 30 are the most");
        }
        GameWarning::ManyStarts { starts } => {
            prepend_counted(line, starts, b" deathmatch starts, 10 are the most");
        }
        GameWarning::LongSave { bytes } => {
            line.prepend_bytes(b" bytes to save at its start, 180224 are the most");
            line.prepend_natural(bytes);
        }
        GameWarning::LacksPatch { texture } => {
            line.prepend_bytes(b" lacks a patch: the game doesn't start");
            prepend_named(line, texture);
            line.prepend_bytes(b"texture ");
        }
        GameWarning::MisplacedFlat { sector, surface } => {
            prepend_misplaced(line, level, sector, surface);
        }
    }
}

// The special of a linedef.
fn prepend_special(line: &mut TextLine, level: &Level<'_>, linedef: u32)
    requires { length line.old ≤ 120 }
    ensures { line.new ≡ linedef_special_text level.now linedef line.old }
{
    if let Some(found) = level.linedefs().get(linedef as usize) {
        prepend_word(line, &found.special);
        line.prepend_bytes(b"special ");
    }
}

// A number, and what there are so many of.
fn prepend_counted(line: &mut TextLine, count: u32, what: &[u8])
    requires room { length line.old ≤ 20 }
    requires short { length what.now ≤ 50 }
    ensures text { line.new ≡ count_text count what.now line.old }
    ensures length { length line.new ≤ length line.old + (length what.now + 10) }
{
    line.prepend_bytes(what);
    prepend_count(line, count as usize);
}

// The reason why none crosses a linedef.
fn prepend_barrier(line: &mut TextLine, barrier: Barrier)
    requires { length line.old ≤ 20 }
    ensures text { line.new ≡ barrier_text barrier line.old }
    ensures length { length line.new ≤ length line.old + 45 }
{
    match barrier {
        Barrier::NoBack => line.prepend_bytes(b" can't be crossed: it has no back sidedef"),
        Barrier::LetsNone => line.prepend_bytes(b" can't be crossed: it lets none through"),
    }
}

// Says that a teleporter has no destination.
fn prepend_no_destination(line: &mut TextLine, level: &Level<'_>, linedef: u32)
    requires { line.old ≡ [] }
    ensures { line.new ≡ game_message level.now (game.NoDestination linedef) line.old }
{
    line.prepend_bytes(b" has a thing of type 14");
    prepend_tag(line, level, linedef);
    line.prepend_bytes(b" has no destination: no sector with tag ");
    prepend_special(line, level, linedef);
}

// The tag of a linedef.
fn prepend_tag(line: &mut TextLine, level: &Level<'_>, linedef: u32)
    requires { length line.old ≤ 30 }
    ensures text { line.new ≡ tag_number level.now linedef line.old }
    ensures length { length line.new ≤ length line.old + 6 }
{
    if let Some(found) = level.linedefs().get(linedef as usize) {
        prepend_word(line, &found.tag);
    }
}

// How a special harms a sector.
fn prepend_harm(line: &mut TextLine, harm: Harm)
    requires { line.old ≡ [] }
    ensures text { line.new ≡ harm_text harm line.old }
    ensures length { length line.new ≤ 110 }
{
    match harm {
        Harm::NoLine { sector } => {
            line.prepend_bytes(b" has no linedef: its use ends the game");
            prepend_numbered(line, b": sector ", sector);
        }
        Harm::NoRing { linedef, sector } => {
            line.prepend_bytes(b", has no other side: its use ends the game");
            prepend_numbered(line, b", the first of sector ", sector);
            prepend_numbered(line, b": linedef ", linedef);
        }
        Harm::OpenRing { linedef, ring } => {
            line.prepend_bytes(b" has no back sidedef: its use ends the game");
            prepend_numbered(line, b" of sector ", ring);
            prepend_numbered(line, b": linedef ", linedef);
        }
        Harm::ManyNeighbours { sector, neighbours } => {
            prepend_counted(line, neighbours, b" higher neighbours, 20 are the most");
            line.prepend_bytes(b" has ");
            prepend_numbered(line, b": sector ", sector);
        }
        Harm::NoNeighbour { sector, height } => {
            line.prepend_bytes(b", its new special is what memory held");
            prepend_word(line, &height);
            line.prepend_bytes(b" finds no neighbour at ");
            prepend_numbered(line, b": sector ", sector);
        }
    }
}

// Some words and a number.
fn prepend_numbered(line: &mut TextLine, words: &[u8], number: u32)
    requires short { length words.now ≤ 22 }
    requires room { length line.old ≤ 90 }
    ensures text { line.new ≡ words.now ++ (decimal number ++ line.old) }
    ensures length { length line.new ≤ length line.old + (length words.now + 10) }
{
    prepend_count(line, number as usize);
    line.prepend_bytes(words);
}

// Says that a sector's floor ends the game.
fn prepend_deadly_floor(line: &mut TextLine, level: &Level<'_>, sector: u32)
    requires { line.old ≡ [] }
    ensures { line.new ≡ game_message level.now (game.DeadlyFloor sector) line.old }
{
    line.prepend_bytes(b": a player on its floor ends the game");
    prepend_sector_special(line, level, sector);
}

// The special of a sector.
fn prepend_sector_special(line: &mut TextLine, level: &Level<'_>, sector: u32)
    requires { length line.old ≤ 120 }
    ensures { line.new ≡ sector_special_text level.now sector line.old }
{
    if let Some(found) = level.sectors().get(sector as usize) {
        prepend_word(line, &found.special);
        line.prepend_bytes(b"special ");
    }
}

// Says that linedefs want a key that isn't there.
fn prepend_locked(line: &mut TextLine, key: Key, linedefs: u32, skills: Skills)
    requires { line.old ≡ [] }
    ensures { line.new ≡ locked_text key linedefs skills line.old }
{
    prepend_skills(line, skills);
    line.prepend_bytes(b", which isn't there in ");
    prepend_key(line, key);
    prepend_count(line, linedefs as usize);
}

// The colour of a key.
fn prepend_key(line: &mut TextLine, key: Key)
    requires { length line.old ≤ 60 }
    ensures text { line.new ≡ key_text key line.old }
    ensures length { length line.new ≤ length line.old + 30 }
{
    match key {
        Key::Blue => line.prepend_bytes(b" linedefs want a blue key"),
        Key::Yellow => line.prepend_bytes(b" linedefs want a yellow key"),
        Key::Red => line.prepend_bytes(b" linedefs want a red key"),
    }
}

// The skills in which something holds.
fn prepend_skills(line: &mut TextLine, skills: Skills)
    requires { length line.old ≤ 60 }
    ensures text { line.new ≡ skills_text skills line.old }
    ensures length { length line.new ≤ length line.old + 18 }
{
    match (skills.easy, skills.medium, skills.hard) {
        (true, true, true) => line.prepend_bytes(b"easy, medium, hard"),
        (true, true, false) => line.prepend_bytes(b"easy, medium"),
        (true, false, true) => line.prepend_bytes(b"easy, hard"),
        (true, false, false) => line.prepend_bytes(b"easy"),
        (false, true, true) => line.prepend_bytes(b"medium, hard"),
        (false, true, false) => line.prepend_bytes(b"medium"),
        (false, false, true) => line.prepend_bytes(b"hard"),
        (false, false, false) => {}
    }
}

// Says that the first game ends its reading at a thing.
fn prepend_ending(line: &mut TextLine, level: &Level<'_>, thing: u32, follow: u32)
    requires { line.old ≡ [] }
    ensures { line.new ≡ game_message level.now (game.EndsThings thing follow) line.old }
{
    prepend_counted(line, follow, b" follow");
    line.prepend_bytes(b" ends the reading of things, ");
    prepend_kind(line, level, thing);
}

// The kind of a thing.
fn prepend_kind(line: &mut TextLine, level: &Level<'_>, thing: u32)
    requires { length line.old ≤ 120 }
    ensures { line.new ≡ kind_text level.now thing line.old }
{
    if let Some(found) = level.things().get(thing as usize) {
        prepend_word(line, &found.kind);
        line.prepend_bytes(b"type ");
    }
}

// The skills in which a shot ends the game.
fn prepend_shot(line: &mut TextLine, skills: Skills)
    requires { line.old ≡ [] }
    ensures text { line.new ≡ skills_text skills (codes ": its shot ends the game" ++ line.old) }
    ensures length { length line.new ≤ 60 }
{
    line.prepend_bytes(b": its shot ends the game");
    prepend_skills(line, skills);
}

// Says that a flat isn't between the ends of the flats.
fn prepend_misplaced(line: &mut TextLine, level: &Level<'_>, sector: u32, surface: Surface)
    requires { line.old ≡ [] }
    ensures { line.new ≡ misplaced_text level.now sector surface line.old }
{
    if let Some(found) = level.sectors().get(sector as usize) {
        prepend_surface(line, surface, &found);
    }
}

fn prepend_surface(line: &mut TextLine, surface: Surface, sector: &Sector)
    requires { line.old ≡ [] }
    ensures { line.new ≡ surface_text surface (named_text (flat_of surface sector.now) (codes " isn't between F_START and F_END" ++ line.old)) }
{
    line.prepend_bytes(b" isn't between F_START and F_END");
    match surface {
        Surface::Floor => {
            prepend_named(line, sector.floor_name);
            line.prepend_bytes(b"floor flat ");
        }
        Surface::Ceiling => {
            prepend_named(line, sector.ceiling_name);
            line.prepend_bytes(b"ceiling flat ");
        }
    }
}
