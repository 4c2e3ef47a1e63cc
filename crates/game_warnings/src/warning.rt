//! What the game does with a level: what each warning says, and its code.

ghost use Rattle.std.specs.Prelude.{◌≡◌};
ghost use Rattle.game_warnings.specs.Warnings.{code_of, number_of};

use crate::code::GameCode;
use crate::skill::Skills;
use game_numbers::Key;

/// What keeps all from crossing a linedef.
#[derive(Clone, Copy, Debug, PartialEq, Eq)]
pub enum Barrier {
    /// It has no back sidedef.
    NoBack,
    /// Its flags stop all that could trigger its special.
    LetsNone,
}

/// An effect that harms a sector by what lies around it.
#[derive(Clone, Copy, Debug, PartialEq, Eq)]
pub enum Effect {
    /// A donut: the sector is its pillar.
    Donut,
    /// The sector moves to the next higher floor beside it.
    Nearest,
    /// It moves to the lowest floor, and takes over what lies there.
    Change,
}

/// How a special harms a sector of its tag.
#[derive(Clone, Copy, Debug, PartialEq, Eq)]
pub enum Harm {
    /// The pillar of a donut has no linedef.
    NoLine { sector: u32 },
    /// The first linedef of a donut's pillar has no other side.
    NoRing { linedef: u32, sector: u32 },
    /// A linedef of a donut's ring has no back.
    OpenRing { linedef: u32, ring: u32 },
    /// So many neighbours of a sector are higher, more than 20.
    ManyNeighbours { sector: u32, neighbours: u32 },
    /// A sector finds no neighbour at a height. Its new special is what memory held.
    NoNeighbour { sector: u32, height: i16 },
}

/// The floor or the ceiling of a sector.
#[derive(Clone, Copy, Debug, PartialEq, Eq)]
pub enum Surface {
    Floor,
    Ceiling,
}

/// A warning, with the numbers of its records.
#[derive(Clone, Copy, Debug, PartialEq, Eq)]
pub enum GameWarning {
    /// W14: a linedef's special is neither 0 nor one of the game's.
    UnknownSpecial {
        linedef: u32,
    },
    /// W15: a linedef's special goes by its tag, and its tag is 0. So many sectors have this tag.
    ZeroTag {
        linedef: u32,
        sectors: u32,
    },
    /// W16: a linedef's special acts when something crosses the linedef, and nothing can.
    NeverCrossed {
        linedef: u32,
        barrier: Barrier,
    },
    /// W16: a linedef takes to a sector of its tag, and none of these has a destination.
    NoDestination {
        linedef: u32,
    },
    /// W17: a door that is opened by hand is on a linedef without a back sidedef. Its use ends the game.
    OneSidedDoor {
        linedef: u32,
    },
    /// W17: a linedef starts so many platforms, more than 30. Its use ends the game.
    ManyPlatforms {
        linedef: u32,
        platforms: u32,
    },
    /// W17: a linedef moves so many ceilings, more than 30. Some of them can't be stopped, and their sectors are never free again.
    ManyCeilings {
        linedef: u32,
        ceilings: u32,
    },
    /// W17: a linedef harms a sector of its tag. Its use ends or spoils the game.
    Harmful {
        linedef: u32,
        harm: Harm,
    },
    /// W18: the game ends when a player stands on the floor of a sector.
    DeadlyFloor {
        sector: u32,
    },
    /// W19: nothing ends the level.
    NoExit,
    /// W19: so many linedefs want a key, which isn't there for one player in these skills.
    Locked {
        key: Key,
        linedefs: u32,
        skills: Skills,
    },
    /// W21: the first game ends the reading of things at a thing. So many follow it.
    EndsThings {
        thing: u32,
        follow: u32,
    },
    /// W21: no skill places a thing of the game's.
    InNoSkill {
        thing: u32,
    },
    /// W21: a shooter of cubes has no target in these skills. Its shot ends the game.
    NoTarget {
        thing: u32,
        skills: Skills,
    },
    /// W21: a shooter of cubes has more than 32 targets in these skills. Its shot ends the game.
    ManyTargets {
        thing: u32,
        skills: Skills,
    },
    /// W22: so many linedefs scroll, more than 64.
    ManyScrolling {
        linedefs: u32,
    },
    /// W22: the platforms of so many sectors go up and down for ever, more than 30.
    ManyPerpetual {
        sectors: u32,
    },
    /// W22: so many things are deathmatch starts, more than 10.
    ManyStarts {
        starts: u32,
    },
    /// W22: a savegame takes so many bytes at the level's start, more than 180,224.
    LongSave {
        bytes: u64,
    },
    /// W22: the first texture of the set that lacks a patch, by the eight bytes of its name. The game doesn't start.
    LacksPatch {
        texture: [u8; 8],
    },
    /// W25: the flat of a sector's floor or ceiling isn't between F_START and F_END.
    MisplacedFlat {
        sector: u32,
        surface: Surface,
    },
}

impl GameWarning {
    /// The code of a warning.
    pub fn code(self) -> GameCode
        ensures { result ≡ code_of self }
    {
        match self {
            GameWarning::UnknownSpecial { .. } => GameCode::W14,
            GameWarning::ZeroTag { .. } => GameCode::W15,
            GameWarning::NeverCrossed { .. } | GameWarning::NoDestination { .. } => GameCode::W16,
            GameWarning::OneSidedDoor { .. }
            | GameWarning::ManyPlatforms { .. }
            | GameWarning::ManyCeilings { .. }
            | GameWarning::Harmful { .. } => GameCode::W17,
            GameWarning::DeadlyFloor { .. } => GameCode::W18,
            GameWarning::NoExit | GameWarning::Locked { .. } => GameCode::W19,
            GameWarning::EndsThings { .. }
            | GameWarning::InNoSkill { .. }
            | GameWarning::NoTarget { .. }
            | GameWarning::ManyTargets { .. } => GameCode::W21,
            GameWarning::ManyScrolling { .. }
            | GameWarning::ManyPerpetual { .. }
            | GameWarning::ManyStarts { .. }
            | GameWarning::LongSave { .. }
            | GameWarning::LacksPatch { .. } => GameCode::W22,
            GameWarning::MisplacedFlat { .. } => GameCode::W25,
        }
    }

    /// The number of the record that it is of; 0 for what is of the level.
    pub fn number(self) -> u32
        ensures { result ≡ number_of self }
    {
        match self {
            GameWarning::UnknownSpecial { linedef }
            | GameWarning::ZeroTag { linedef, .. }
            | GameWarning::NeverCrossed { linedef, .. }
            | GameWarning::NoDestination { linedef }
            | GameWarning::OneSidedDoor { linedef }
            | GameWarning::ManyPlatforms { linedef, .. }
            | GameWarning::ManyCeilings { linedef, .. }
            | GameWarning::Harmful { linedef, .. } => linedef,
            GameWarning::DeadlyFloor { sector } | GameWarning::MisplacedFlat { sector, .. } =>
                sector,
            GameWarning::EndsThings { thing, .. }
            | GameWarning::InNoSkill { thing }
            | GameWarning::NoTarget { thing, .. }
            | GameWarning::ManyTargets { thing, .. } => thing,
            GameWarning::NoExit
            | GameWarning::Locked { .. }
            | GameWarning::ManyScrolling { .. }
            | GameWarning::ManyPerpetual { .. }
            | GameWarning::ManyStarts { .. }
            | GameWarning::LongSave { .. }
            | GameWarning::LacksPatch { .. } => 0,
        }
    }
}
