//! The table of all codes, in the order of a report. `tools/tables` writes its rows into other languages and into pages.

ghost use Rattle.std.specs.Prelude.{◌≡◌, ◌<◌, map};
ghost use Rattle.level_codes.specs.Codes.{code_table, row_at, view_of};

use crate::code::{ReportCode, WarningCode};
use crate::kind::{Class, Kind, Wants};
use map_level::Code;

/// How many codes there are.
pub const REPORT_COUNT: usize = 55;

/// A row of the table.
#[derive(Clone, Copy)]
pub struct Row {
    pub code: ReportCode,
    /// The code as it is printed: two bytes or three.
    pub name: &'static [u8],
    pub class: Class,
    /// What the code is found at.
    pub kind: Kind,
    /// What the level has to have so that the code is looked for.
    pub wants: Wants,
    /// Whether the released game ends at it, or writes where nothing of its own is. Of a fault it isn't told.
    pub ends_game: bool,
    /// What the code says, in few words: of a finding those of `wadlook audit`.
    pub text: &'static [u8],
    /// The same as a sentence, without its capital and its full stop.
    pub meaning: &'static [u8],
}

macro_rules! fault {
    ($code:ident, $name:literal, $kind:ident, $text:literal, $meaning:literal) => {
        Row {
            code: ReportCode::Finding(Code::$code),
            name: $name,
            class: Class::Fault,
            kind: Kind::$kind,
            wants: Wants::Lumps,
            ends_game: false,
            text: $text,
            meaning: $meaning,
        }
    };
}

macro_rules! note {
    ($code:ident, $name:literal, $kind:ident, $text:literal, $meaning:literal) => {
        Row {
            code: ReportCode::Finding(Code::$code),
            name: $name,
            class: Class::Note,
            kind: Kind::$kind,
            wants: Wants::Lumps,
            ends_game: false,
            text: $text,
            meaning: $meaning,
        }
    };
}

macro_rules! warning {
    ($code:ident, $name:literal, $kind:ident, $wants:ident, $text:literal, $meaning:literal) => {
        Row {
            code: ReportCode::Warning(WarningCode::$code),
            name: $name,
            class: Class::Warning,
            kind: Kind::$kind,
            wants: Wants::$wants,
            ends_game: false,
            text: $text,
            meaning: $meaning,
        }
    };
}

// A row whose code ends the game.
macro_rules! ends_game {
    ($row:expr) => {
        Row {
            ends_game: true,
            ..$row
        }
    };
}

// All codes: faults, notes, warnings.
const TABLE: [Row; REPORT_COUNT] = [
    fault! { F1, b"F1", Lump, b"lump missing after the label", b"a lump isn't there behind the label" },
    fault! { F2, b"F2", Lump, b"lump outside its file", b"a lump isn't inside its file" },
    fault! { F3, b"F3", Linedef, b"linedef vertex names none", b"a linedef's vertex isn't there" },
    fault! { F4, b"F4", Linedef, b"linedef side names none", b"a linedef's sidedef isn't there" },
    fault! { F5, b"F5", Sidedef, b"sidedef sector names none", b"a sidedef's sector isn't there" },
    fault! { F6, b"F6", Seg, b"seg vertex names none", b"a seg's vertex isn't there" },
    fault! { F7, b"F7", Seg, b"seg linedef names none", b"a seg's linedef isn't there" },
    fault! { F8, b"F8", Seg, b"seg side is not 0 or 1", b"a seg's side is neither 0 nor 1" },
    fault! { F9, b"F9", Seg, b"seg's linedef has no side there", b"a seg's linedef has no sidedef on the seg's side" },
    fault! { F10, b"F10", Ssector, b"ssector's segs out of range", b"an ssector's segs aren't all there" },
    fault! { F11, b"F11", Node, b"child names nothing", b"a node's child isn't there" },
    fault! { F12, b"F12", Node, b"node origin out of range", b"a node's origin is outside -16384 to 16383" },
    fault! { F13, b"F13", Node, b"node named twice or root named", b"a node is named more than once, or is the root and named" },
    fault! { F14, b"F14", Node, b"node not reached", b"a node isn't reached from the root" },
    fault! { F15, b"F15", Ssector, b"ssector named more than once", b"an ssector is named more than once" },
    fault! { F16, b"F16", Ssector, b"ssector not reached", b"an ssector isn't reached from the root" },
    fault! { F17, b"F17", Whole, b"no ssector", b"the level has no ssector" },
    fault! { F18, b"F18", Whole, b"more than 32767 nodes", b"the level has more than 32767 nodes" },
    note! { N1, b"N1", Lump, b"lump name differs", b"a lump's name isn't the usual one" },
    note! { N2, b"N2", Lump, b"bytes left over", b"a lump has bytes left over" },
    note! { N3, b"N3", Linedef, b"two-sided flag without side 1", b"a linedef is two-sided, without a back sidedef" },
    ends_game! { note! { N4, b"N4", Linedef, b"no side 0", b"a linedef is without a front sidedef" } },
    note! { N5, b"N5", Linedef, b"linedef of no length", b"a linedef is without length" },
    note! { N6, b"N6", Ssector, b"ssector without segs", b"an ssector is without segs" },
    note! { N7, b"N7", Node, b"partition without direction", b"a node is without direction" },
    note! { N8, b"N8", Whole, b"REJECT size", b"REJECT hasn't as many bytes as are wanted" },
    note! { N9, b"N9", Whole, b"BLOCKMAP short", b"BLOCKMAP hasn't as many words as are wanted" },
    note! { N10, b"N10", Block, b"block list faulty", b"a block's list isn't inside BLOCKMAP, or has no end" },
    ends_game! { note! { N11, b"N11", Whole, b"no player 1 start", b"the level has no player 1 start" } },
    note! { N12, b"N12", Vertex, b"vertex out of range", b"a vertex is outside -16384 to 16383" },
    warning! { W1, b"W1", Sector, References, b"sector not closed", b"a sector isn't closed: its outline has a gap or an extra line" },
    warning! { W2, b"W2", Linedef, References, b"wall without texture", b"a texture that is seen is missing" },
    warning! { W3, b"W3", Thing, Soundness, b"thing in the void", b"a thing stands in the void" },
    warning! { W4, b"W4", Linedef, References, b"tag of no sector", b"a linedef's special goes by a tag that no sector has" },
    warning! { W5, b"W5", Ssector, Soundness, b"segs face several sectors", b"the segs of an ssector face several sectors" },
    warning! { W6, b"W6", Linedef, References, b"linedef on another", b"a linedef lies on another" },
    warning! { W7, b"W7", Whole, References, b"no start of players 2 to 4", b"a start of players 2 to 4 is missing" },
    warning! { W8, b"W8", Whole, References, b"fewer than 4 deathmatch starts", b"the level has fewer than 4 deathmatch starts" },
    ends_game! { warning! { W9, b"W9", Sidedef, Textures, b"texture not there", b"a texture isn't there: neither TEXTURE1 nor TEXTURE2 lists it" } },
    ends_game! { warning! { W10, b"W10", Sector, Flats, b"flat not there", b"a flat isn't there: no entry has its name" } },
    ends_game! { warning! { W11, b"W11", Thing, References, b"thing of no known type", b"a thing's type is none of the game's" } },
    warning! { W12, b"W12", Whole, Lumps, b"reserved", b"this number is kept for a later version" },
    warning! { W13, b"W13", Whole, Lumps, b"reserved", b"this number is kept for a later version" },
    warning! { W14, b"W14", Linedef, References, b"unknown special", b"a linedef's special is none of the game's" },
    warning! { W15, b"W15", Linedef, References, b"special with tag 0", b"a linedef's special goes by the tag, and the tag is 0" },
    warning! { W16, b"W16", Linedef, References, b"special that acts on nothing", b"a linedef's special can't be crossed, or has no destination" },
    ends_game! { warning! { W17, b"W17", Linedef, References, b"use ends or spoils the game", b"a linedef's use ends or spoils the game" } },
    ends_game! { warning! { W18, b"W18", Sector, References, b"floor that ends the game", b"a player on a sector's floor ends the game" } },
    warning! { W19, b"W19", Whole, References, b"no exit, or a key missing", b"the level has no exit, or a key isn't there" },
    warning! { W20, b"W20", Whole, Lumps, b"reserved", b"this number is kept for a later version" },
    warning! { W21, b"W21", Thing, References, b"thing unread, unplaced or deadly", b"a thing ends the reading of things, is in no skill, or ends the game" },
    ends_game! { warning! { W22, b"W22", Whole, References, b"limit of the game passed", b"the level passes a limit of the game, or a texture lacks a patch" } },
    warning! { W23, b"W23", Whole, Lumps, b"reserved", b"this number is kept for a later version" },
    warning! { W24, b"W24", Whole, Lumps, b"reserved", b"this number is kept for a later version" },
    warning! { W25, b"W25", Sector, FlatEnds, b"flat not between its ends", b"a flat isn't between F_START and F_END" },
];

// The rows.
fn rows() -> &'static [Row]
    ensures { map view_of result.now ≡ code_table }
{
    &TABLE
}

/// The row of a rank.
pub fn row_at(rank: usize) -> &'static Row
    requires { rank < REPORT_COUNT }
    ensures { view_of result.now ≡ row_at rank }
{
    let rows = rows();
    &rows[rank]
}
