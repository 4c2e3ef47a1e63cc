//! What a warning says, and where it lies.

ghost use Rattle.std.specs.Prelude.{◌≡◌, ◌+◌, ◌≤◌, [], ◌++◌, length};
ghost use Rattle.std.specs.Fmt.{decimal};
ghost use Rattle.map_warnings.specs.UnknownFlat.{flat_of};
ghost use Rattle.lens_texts.specs.Owners.{AreOwners};
ghost use Rattle.lens_texts.specs.WarningMessage.{flat_text, missing_text, part_text, side_text, tag_text, texture_text};
ghost use Rattle.lens_texts.specs.WarningMessage.{unknown_flat_text, unknown_texture_text, unknown_thing_text};
ghost use Rattle.lens_texts.specs.WarningMessage.{vertex_place, warning_message, warning_place};

use crate::digits::{prepend_count, prepend_word};
use crate::game_message::prepend_game_message;
use crate::label::prepend_named;
use crate::place::{MapPlace, Spot, place_at};
use le_rec::Sector;
use level_codes::ReportCode;
use line_io::TextLine;
use map_level::Level;
use map_warnings::{Plane, Side, SidePart, Warning};

/// Puts what a warning says into the line.
pub fn prepend_warning_message(line: &mut TextLine, level: &Level<'_>, warning: Warning)
    requires { line.old ≡ [] }
    ensures { line.new ≡ warning_message level.now warning line.old }
{
    match warning {
        Warning::Unclosed { .. } => line.prepend_bytes(b"isn't closed"),
        Warning::Bare { side, part, .. } => {
            prepend_side(line, side);
            prepend_part(line, part);
        }
        Warning::InVoid { .. } => line.prepend_bytes(b"stands in the void"),
        Warning::Untagged { linedef } => prepend_tag(line, level, linedef),
        Warning::Mismatched { first, other, .. } => {
            prepend_numbered(line, b" and ", other);
            prepend_numbered(line, b"its segs face sectors ", first);
        }
        Warning::Twin { earlier, .. } => prepend_numbered(line, b"lies on linedef ", earlier),
        Warning::NoStart { player } => {
            line.prepend_bytes(b" start");
            prepend_numbered(line, b"no player ", player);
        }
        Warning::FewStarts { starts } => {
            line.prepend_bytes(b" deathmatch starts");
            prepend_count(line, starts as usize);
        }
        Warning::UnknownTexture { sidedef, part } => {
            prepend_unknown_texture(line, level, sidedef, part);
        }
        Warning::UnknownFlat { sector, plane } => prepend_unknown_flat(line, level, sector, plane),
        Warning::UnknownThing { thing } => prepend_unknown_thing(line, level, thing),
        Warning::Game(told) => prepend_game_message(line, level, told),
    }
}

// A side of a linedef.
fn prepend_side(line: &mut TextLine, side: Side)
    requires { length line.old ≤ 44 }
    ensures text { line.new ≡ side_text side line.old }
    ensures length { length line.new ≤ length line.old + 11 }
{
    match side {
        Side::Front => line.prepend_bytes(b"in front"),
        Side::Back => line.prepend_bytes(b"at the back"),
    }
}

// A part of a wall that has no texture.
fn prepend_part(line: &mut TextLine, part: SidePart)
    requires { length line.old ≤ 55 }
    ensures { line.new ≡ part_text part line.old }
{
    match part {
        SidePart::Middle => line.prepend_bytes(b"no middle texture "),
        SidePart::Upper => line.prepend_bytes(b"no upper texture "),
        SidePart::Lower => line.prepend_bytes(b"no lower texture "),
    }
}

// That no sector has a linedef's tag.
fn prepend_tag(line: &mut TextLine, level: &Level<'_>, linedef: u32)
    requires { length line.old ≤ 44 }
    ensures { line.new ≡ tag_text level.now linedef line.old }
{
    if let Some(found) = level.linedefs().get(linedef as usize) {
        prepend_word(line, &found.tag);
        line.prepend_bytes(b"no sector has tag ");
    }
}

// That a texture isn't there.
fn prepend_unknown_texture(line: &mut TextLine, level: &Level<'_>, sidedef: u32, part: SidePart)
    requires { length line.old ≤ 44 }
    ensures { line.new ≡ unknown_texture_text level.now sidedef part line.old }
{
    if let Some(found) = level.sidedefs().get(sidedef as usize) {
        match part {
            SidePart::Upper => prepend_missing(line, b"upper texture ", found.top),
            SidePart::Lower => prepend_missing(line, b"lower texture ", found.bottom),
            SidePart::Middle => prepend_missing(line, b"middle texture ", found.middle),
        }
    }
}

// That a flat isn't there.
fn prepend_unknown_flat(line: &mut TextLine, level: &Level<'_>, sector: u32, plane: Plane)
    requires { length line.old ≤ 44 }
    ensures { line.new ≡ unknown_flat_text level.now sector plane line.old }
{
    if let Some(found) = level.sectors().get(sector as usize) {
        prepend_flat(line, plane, &found);
    }
}

fn prepend_flat(line: &mut TextLine, plane: Plane, sector: &Sector)
    requires { length line.old ≤ 44 }
    ensures { line.new ≡ flat_text plane (missing_text (flat_of plane sector.now) line.old) }
{
    match plane {
        Plane::Floor => prepend_missing(line, b"floor flat ", sector.floor_name),
        Plane::Ceiling => prepend_missing(line, b"ceiling flat ", sector.ceiling_name),
    }
}

// Some words, and that the game finds nothing under the name of eight bytes.
fn prepend_missing(line: &mut TextLine, words: &[u8], bytes: [u8; 8])
    requires short { length words.now ≤ 15 }
    requires room { length line.old ≤ 44 }
    ensures { line.new ≡ words.now ++ missing_text bytes line.old }
{
    line.prepend_bytes(b" isn't there");
    prepend_named(line, bytes);
    line.prepend_bytes(words);
}

// Says that the game knows no thing of a kind.
fn prepend_unknown_thing(line: &mut TextLine, level: &Level<'_>, thing: u32)
    requires { length line.old ≤ 44 }
    ensures { line.new ≡ unknown_thing_text level.now thing line.old }
{
    if let Some(found) = level.things().get(thing as usize) {
        line.prepend_bytes(b" is none of the game's");
        prepend_word(line, &found.kind);
        line.prepend_bytes(b"type ");
    }
}

// Some words and a number.
fn prepend_numbered(line: &mut TextLine, words: &[u8], number: u32)
    requires short { length words.now ≤ 22 }
    requires room { length line.old ≤ 100 }
    ensures text { line.new ≡ words.now ++ (decimal number ++ line.old) }
    ensures length { length line.new ≤ length line.old + (length words.now + 10) }
{
    prepend_count(line, number as usize);
    line.prepend_bytes(words);
}

/// Where a warning lies, by the linedefs of the sidedefs.
pub fn warning_place(level: &Level<'_>, owners: &[Option<u32>], warning: Warning) -> MapPlace
    requires { AreOwners level.now owners.now }
    ensures { result ≡ warning_place level.now warning }
{
    match warning {
        Warning::Unclosed { vertex, .. } => vertex_place(level, vertex),
        _ => {
            let kind = ReportCode::Warning(warning.code()).kind();
            place_at(level, owners, kind, warning.number() as usize)
        }
    }
}

// Where a vertex is.
fn vertex_place(level: &Level<'_>, i: u32) -> MapPlace
    ensures { result ≡ vertex_place level.now i }
{
    match level.vertexes().get(i as usize) {
        Some(vertex) => MapPlace::At(Spot {
            x: vertex.x,
            y: vertex.y,
        }),
        None => MapPlace::Nowhere,
    }
}
