//! Where on the map a finding lies.

ghost use Rattle.std.specs.Prelude.{◌≡◌, ◌+◌, ◌≤◌, length};
ghost use Rattle.line_io.specs.declared.text_line.TheConstants.{ROOM};
ghost use Rattle.lens_texts.specs.Owners.{AreOwners};
ghost use Rattle.lens_texts.specs.Place.{between, ends_of, linedef_ends, owner_of, place_at, place_of, place_text, spot_text};

use crate::digits::{prepend_count, prepend_word};
use crate::records::{first_spot, spot_at};
use level_codes::{Kind, ReportCode};
use line_io::TextLine;
use map_level::{Code, Level};

/// A place on the map, in map units.
#[derive(Clone, Copy)]
pub struct Spot {
    pub x: i16,
    pub y: i16,
}

/// Where on the map a finding lies.
#[derive(Clone, Copy)]
pub enum MapPlace {
    /// It isn't known.
    Nowhere,
    At(Spot),
    Between(Spot, Spot),
    /// On the linedef of this number.
    OfLinedef(u32),
}

/// The two ends of a place. Those of a lone spot are the same.
#[derive(Clone, Copy)]
pub struct PlaceEnds {
    pub from: Spot,
    pub to: Spot,
}

/// Where a finding lies, by the linedefs of the sidedefs.
pub fn place_of(level: &Level<'_>, owners: &[Option<u32>], code: Code, index: u32) -> MapPlace
    requires { AreOwners level.now owners.now }
    ensures { result ≡ place_of level.now code index }
{
    if code.rank() == Code::F12.rank() {
        return MapPlace::Nowhere;
    }
    place_at(
        level,
        owners,
        ReportCode::Finding(code).kind(),
        index as usize,
    )
}

/// Where what is of a kind and a number lies: a linedef or a seg between its vertexes, a sidedef on the first linedef that names
/// it, an ssector where its first seg starts, a node at its origin.
pub fn place_at(level: &Level<'_>, owners: &[Option<u32>], kind: Kind, i: usize) -> MapPlace
    requires { AreOwners level.now owners.now }
    ensures { result ≡ place_at level.now kind i }
{
    match kind {
        Kind::Linedef => match level.linedefs().get(i) {
            Some(linedef) => between(level, &linedef.v1, &linedef.v2),
            None => MapPlace::Nowhere,
        },
        Kind::Seg => match level.segs().get(i) {
            Some(seg) => between(level, &seg.v1, &seg.v2),
            None => MapPlace::Nowhere,
        },
        Kind::Sidedef => match owner_of(level, owners, i) {
            Some(linedef) => MapPlace::OfLinedef(linedef),
            None => MapPlace::Nowhere,
        },
        Kind::Ssector => match first_spot(level, i) {
            Some(spot) => MapPlace::At(spot),
            None => MapPlace::Nowhere,
        },
        Kind::Node => match level.nodes().get(i) {
            Some(node) => MapPlace::At(Spot {
                x: node.x,
                y: node.y,
            }),
            None => MapPlace::Nowhere,
        },
        Kind::Thing => match level.things().get(i) {
            Some(thing) => MapPlace::At(Spot {
                x: thing.x,
                y: thing.y,
            }),
            None => MapPlace::Nowhere,
        },
        Kind::Vertex | Kind::Sector | Kind::Lump | Kind::Block | Kind::Whole => MapPlace::Nowhere,
    }
}

// Between the vertexes that two words name.
fn between(level: &Level<'_>, v1: &i16, v2: &i16) -> MapPlace
    ensures { result ≡ between level.now v1.now v2.now }
{
    match (spot_at(level, *v1), spot_at(level, *v2)) {
        (Some(from), Some(to)) => MapPlace::Between(from, to),
        _ => MapPlace::Nowhere,
    }
}

// The linedef of a sidedef.
fn owner_of(level: &Level<'_>, owners: &[Option<u32>], i: usize) -> Option<u32>
    requires { AreOwners level.now owners.now }
    ensures { result ≡ owner_of level.now i }
{
    // Only the clauses speak of the level.
    let _level = level;
    if i < owners.len() { owners[i] } else { None }
}

/// The two ends of a place, if it is known.
pub fn ends_of(level: &Level<'_>, place: MapPlace) -> Option<PlaceEnds>
    ensures { result ≡ ends_of level.now place }
{
    match place {
        MapPlace::Nowhere => None,
        MapPlace::At(spot) => Some(PlaceEnds {
            from: spot,
            to: spot,
        }),
        MapPlace::Between(from, to) => Some(PlaceEnds { from, to }),
        MapPlace::OfLinedef(linedef) => linedef_ends(level, linedef as usize),
    }
}

// The two ends of a linedef.
fn linedef_ends(level: &Level<'_>, i: usize) -> Option<PlaceEnds>
    ensures { result ≡ linedef_ends level.now i }
{
    let linedef = level.linedefs().get(i)?;
    let from = spot_at(level, linedef.v1)?;
    let to = spot_at(level, linedef.v2)?;
    Some(PlaceEnds { from, to })
}

/// Puts a place before the line, as it follows a message.
pub fn prepend_place(line: &mut TextLine, place: MapPlace)
    requires { length line.old ≤ 1 }
    ensures text { line.new ≡ place_text place line.old }
    ensures length { length line.new ≤ length line.old + 43 }
{
    match place {
        MapPlace::Nowhere => {}
        MapPlace::At(spot) => {
            prepend_spot(line, &spot.x, &spot.y);
            line.prepend_bytes(b", at ");
        }
        MapPlace::Between(from, to) => {
            prepend_spot(line, &to.x, &to.y);
            line.prepend_bytes(b" to ");
            prepend_spot(line, &from.x, &from.y);
            line.prepend_bytes(b", from ");
        }
        MapPlace::OfLinedef(linedef) => {
            prepend_count(line, linedef as usize);
            line.prepend_bytes(b", of linedef ");
        }
    }
}

/// Puts `(X, Y)` before the line.
pub fn prepend_spot(line: &mut TextLine, x: &i16, y: &i16)
    requires { length line.old + 36 ≤ ROOM }
    ensures text { line.new ≡ spot_text x.now y.now line.old }
    ensures length { length line.new ≤ length line.old + 16 }
{
    line.prepend_bytes(b")");
    prepend_word(line, y);
    line.prepend_bytes(b", ");
    prepend_word(line, x);
    line.prepend_bytes(b"(");
}
