//! Warnings of a level: what each says, and its code.

ghost use Rattle.std.specs.Prelude.{◌≡◌};
ghost use Rattle.map_warnings.specs.Game.{report_code};
ghost use Rattle.map_warnings.specs.Warnings.{code_of, ends_at, ends_game, number_of};

use game_warnings::{GameCode, GameWarning};
use level_codes::{ReportCode, WarningCode};

/// A side of a linedef.
#[derive(Clone, Copy, Debug, PartialEq, Eq)]
pub enum Side {
    Front,
    Back,
}

/// A part of a linedef's side.
#[derive(Clone, Copy, Debug, PartialEq, Eq)]
pub enum SidePart {
    Middle,
    Upper,
    Lower,
}

/// A plane of a sector.
#[derive(Clone, Copy, Debug, PartialEq, Eq)]
pub enum Plane {
    Floor,
    Ceiling,
}

/// A warning, with the numbers of its records.
#[derive(Clone, Copy, Debug, PartialEq, Eq)]
pub enum Warning {
    /// W1: a sector's outline has a gap or an extra line at a vertex. Not the same number of its
    /// sides leave the vertex as reach it.
    Unclosed {
        sector: u32,
        vertex: u32,
    },
    /// W2: a part of a linedef's side has no texture and can be seen.
    Bare {
        linedef: u32,
        side: Side,
        part: SidePart,
    },
    /// W3: no sector is shown where a thing is.
    InVoid {
        thing: u32,
    },
    /// W4: a linedef's special goes by its tag to a sector, and no sector has the tag.
    Untagged {
        linedef: u32,
    },
    /// W5: an ssector's segs don't all face one sector. These are the first seg's sector, and the
    /// first other one.
    Mismatched {
        ssector: u32,
        first: u32,
        other: u32,
    },
    /// W6: a linedef lies on an earlier one. This is the first with the same two places as ends.
    Twin {
        linedef: u32,
        earlier: u32,
    },
    /// W7: a player has no start. This is the first of players 2 to 4 without one.
    NoStart {
        player: u32,
    },
    /// W8: there are fewer than the four deathmatch starts that the game wants. This is how many.
    FewStarts {
        starts: u32,
    },
    /// W9: no lump of the set lists the texture at a part of a sidedef.
    UnknownTexture {
        sidedef: u32,
        part: SidePart,
    },
    /// W10: no entry of the set has the name of a sector's flat.
    UnknownFlat {
        sector: u32,
        plane: Plane,
    },
    /// W11: the game doesn't know the kind of a thing, and some skill places the thing.
    UnknownThing {
        thing: u32,
    },
    /// W14 to W25: what the released game does with the level.
    Game(GameWarning),
}

impl Warning {
    /// The code of a warning.
    pub fn code(self) -> WarningCode
        ensures { result ≡ code_of self }
    {
        match self {
            Warning::Unclosed { .. } => WarningCode::W1,
            Warning::Bare { .. } => WarningCode::W2,
            Warning::InVoid { .. } => WarningCode::W3,
            Warning::Untagged { .. } => WarningCode::W4,
            Warning::Mismatched { .. } => WarningCode::W5,
            Warning::Twin { .. } => WarningCode::W6,
            Warning::NoStart { .. } => WarningCode::W7,
            Warning::FewStarts { .. } => WarningCode::W8,
            Warning::UnknownTexture { .. } => WarningCode::W9,
            Warning::UnknownFlat { .. } => WarningCode::W10,
            Warning::UnknownThing { .. } => WarningCode::W11,
            Warning::Game(told) => report_code(told.code()),
        }
    }

    /// The number of the record that it is of, a sector's where it is of a sector; 0 for what can hold only once.
    pub fn number(self) -> u32
        ensures { result ≡ number_of self }
    {
        match self {
            Warning::Unclosed { sector, .. } | Warning::UnknownFlat { sector, .. } => sector,
            Warning::Bare { linedef, .. }
            | Warning::Untagged { linedef }
            | Warning::Twin { linedef, .. } => linedef,
            Warning::InVoid { thing } | Warning::UnknownThing { thing } => thing,
            Warning::Mismatched { ssector, .. } => ssector,
            Warning::UnknownTexture { sidedef, .. } => sidedef,
            Warning::NoStart { .. } | Warning::FewStarts { .. } => 0,
            Warning::Game(told) => told.number(),
        }
    }

    /// Whether the released game ends at it, or writes where nothing of its own is: as its code says, but for deathmatch starts
    /// that are too many. The game never uses those.
    pub fn ends_game(self) -> bool
        ensures { result ≡ ends_game self }
    {
        match self {
            Warning::Game(told) => ends_at(told),
            _ => ReportCode::Warning(self.code()).ends_game(),
        }
    }
}

// Whether it ends at what it does.
fn ends_at(told: GameWarning) -> bool
    ensures { result ≡ ends_at told }
{
    match told {
        GameWarning::ManyStarts { .. } => false,
        _ => ReportCode::Warning(report_code(told.code())).ends_game(),
    }
}

/// The report's code of what the game does.
pub fn report_code(code: GameCode) -> WarningCode
    ensures { result ≡ report_code code }
{
    match code {
        GameCode::W14 => WarningCode::W14,
        GameCode::W15 => WarningCode::W15,
        GameCode::W16 => WarningCode::W16,
        GameCode::W17 => WarningCode::W17,
        GameCode::W18 => WarningCode::W18,
        GameCode::W19 => WarningCode::W19,
        GameCode::W21 => WarningCode::W21,
        GameCode::W22 => WarningCode::W22,
        GameCode::W25 => WarningCode::W25,
    }
}
