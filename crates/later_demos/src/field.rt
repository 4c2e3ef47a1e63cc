//! The fields of a header: their names and their places.

ghost use Rattle.std.specs.Prelude.{◌≡◌, ◌≤◌, length};
ghost use Rattle.later_demos.specs.Field.{comp_of, field_row, number_at, number_in, place_of, view_of};
ghost use Rattle.later_demos.specs.Game.{byte_in};

use crate::layout::{Engine, Layout};
use crate::numbers::{big16_at, big32_at, byte_at, part_of};

/// A field of a header. A flag is set where its byte isn't 0.
#[derive(Clone, Copy, Debug, PartialEq, Eq)]
pub enum Field {
    /// The version.
    Version,
    /// Boom's; not 0 where it imitates Doom.
    Compatibility,
    /// From 0, the easiest.
    Skill,
    /// `episode`.
    Episode,
    /// `map`.
    Map,
    /// 1, or 2 where weapons and items come back.
    Deathmatch,
    /// The player whose view is shown, from 0.
    Viewpoint,
    /// `monsters_remember`.
    MonstersRemember,
    /// `variable_friction`.
    VariableFriction,
    /// `weapon_recoil`.
    WeaponRecoil,
    /// `allow_pushers`.
    AllowPushers,
    /// `player_bobbing`.
    PlayerBobbing,
    /// Not 0 where killed monsters come back.
    Respawn,
    /// Not 0 where monsters and their shots are faster.
    Fast,
    /// Not 0 where the level has no monsters.
    NoMonsters,
    /// `demo_insurance`.
    DemoInsurance,
    /// The seed of the random numbers.
    RngSeed,
    /// `monster_infighting`.
    MonsterInfighting,
    /// How many dogs help.
    Dogs,
    /// How far friends stay away.
    DistFriend,
    /// `monster_backing`.
    MonsterBacking,
    /// `monster_avoid_hazards`.
    MonsterAvoidHazards,
    /// `monster_friction`.
    MonsterFriction,
    /// `help_friends`.
    HelpFriends,
    /// `dog_jumping`.
    DogJumping,
    /// `monkeys`.
    Monkeys,
    /// How many compatibility options MBF21 has.
    Comps,
    /// Not 0 where ssectors are found by the old way.
    ForceOldBsp,
}

/// All fields, in the order of their places in headers of version 200 and above.
pub const FIELDS: [Field; 28] = [
    Field::Version,
    Field::Compatibility,
    Field::Skill,
    Field::Episode,
    Field::Map,
    Field::Deathmatch,
    Field::Viewpoint,
    Field::MonstersRemember,
    Field::VariableFriction,
    Field::WeaponRecoil,
    Field::AllowPushers,
    Field::PlayerBobbing,
    Field::Respawn,
    Field::Fast,
    Field::NoMonsters,
    Field::DemoInsurance,
    Field::RngSeed,
    Field::MonsterInfighting,
    Field::Dogs,
    Field::DistFriend,
    Field::MonsterBacking,
    Field::MonsterAvoidHazards,
    Field::MonsterFriction,
    Field::HelpFriends,
    Field::DogJumping,
    Field::Monkeys,
    Field::Comps,
    Field::ForceOldBsp,
];

/// A row of the table of fields.
#[derive(Clone, Copy)]
pub(crate) struct FieldRow {
    name: &'static [u8],
    // How many bytes it has, the highest first.
    size: u8,
    // Its place in headers of Doom.
    doom: Option<u8>,
    // Its place in those of Boom, MBF and PrBoom, and the first of their versions that has it.
    boom: Option<u8>,
    since: u8,
    // Its place in those of MBF21.
    mbf21: Option<u8>,
}

macro_rules! row {
    ($name:literal, $size:literal, $doom:expr, $boom:expr, $since:literal, $mbf21:expr) => {
        FieldRow {
            name: $name,
            size: $size,
            doom: $doom,
            boom: $boom,
            since: $since,
            mbf21: $mbf21,
        }
    };
}

impl Field {
    // The table.
    fn row(self) -> FieldRow
        ensures { view_of result ≡ field_row self }
    {
        match self {
            Field::Version => row! { b"version", 1, Some(0), Some(0), 0, Some(0) },
            Field::Compatibility => row! { b"compatibility", 1, None, Some(7), 0, None },
            Field::Skill => row! { b"skill", 1, Some(1), Some(8), 0, Some(7) },
            Field::Episode => row! { b"episode", 1, Some(2), Some(9), 0, Some(8) },
            Field::Map => row! { b"map", 1, Some(3), Some(10), 0, Some(9) },
            Field::Deathmatch => row! { b"deathmatch", 1, Some(4), Some(11), 0, Some(10) },
            Field::Viewpoint => row! { b"viewpoint", 1, Some(8), Some(12), 0, Some(11) },
            Field::MonstersRemember =>
                row! { b"monsters_remember", 1, None, Some(13), 0, Some(12) },
            Field::VariableFriction => row! { b"variable_friction", 1, None, Some(14), 0, None },
            Field::WeaponRecoil => row! { b"weapon_recoil", 1, None, Some(15), 0, Some(13) },
            Field::AllowPushers => row! { b"allow_pushers", 1, None, Some(16), 0, None },
            Field::PlayerBobbing => row! { b"player_bobbing", 1, None, Some(18), 0, Some(14) },
            Field::Respawn => row! { b"respawn", 1, Some(5), Some(19), 0, Some(15) },
            Field::Fast => row! { b"fast", 1, Some(6), Some(20), 0, Some(16) },
            Field::NoMonsters => row! { b"nomonsters", 1, Some(7), Some(21), 0, Some(17) },
            Field::DemoInsurance => row! { b"demo_insurance", 1, None, Some(22), 0, None },
            Field::RngSeed => row! { b"rngseed", 4, None, Some(23), 0, Some(18) },
            Field::MonsterInfighting =>
                row! { b"monster_infighting", 1, None, Some(27), 203, Some(22) },
            Field::Dogs => row! { b"dogs", 1, None, Some(28), 203, Some(23) },
            Field::DistFriend => row! { b"distfriend", 2, None, Some(31), 203, Some(24) },
            Field::MonsterBacking => row! { b"monster_backing", 1, None, Some(33), 203, Some(26) },
            Field::MonsterAvoidHazards =>
                row! { b"monster_avoid_hazards", 1, None, Some(34), 203, Some(27) },
            Field::MonsterFriction =>
                row! { b"monster_friction", 1, None, Some(35), 203, Some(28) },
            Field::HelpFriends => row! { b"help_friends", 1, None, Some(36), 203, Some(29) },
            Field::DogJumping => row! { b"dog_jumping", 1, None, Some(37), 203, Some(30) },
            Field::Monkeys => row! { b"monkeys", 1, None, Some(38), 203, Some(31) },
            Field::Comps => row! { b"comps", 1, None, None, 0, Some(32) },
            Field::ForceOldBsp => row! { b"force_old_bsp", 1, None, Some(71), 210, None },
        }
    }

    /// The name, as listings have it.
    #[tactic(auto, using(crate::proofs::FieldLemmas::name_short))]
    pub fn name(self) -> &'static [u8]
        ensures name { result.now ≡ (field_row self).name }
        ensures short { length result.now ≤ 21 }
    {
        self.row().name
    }

    /// The number of bytes.
    pub fn size(self) -> usize
        ensures { result ≡ (field_row self).size }
    {
        usize::from(self.row().size)
    }

    /// The place in headers of a version, or None where the version hasn't the field.
    pub fn place(self, version: u8, layout: Layout) -> Option<u8>
        ensures { result ≡ place_of self version layout.engine }
    {
        let row = self.row();
        match layout.engine {
            Engine::Early | Engine::Doom => row.doom,
            Engine::Mbf21 => row.mbf21,
            Engine::Boom | Engine::Mbf | Engine::PrBoom => {
                if row.since <= version { row.boom } else { None }
            }
        }
    }

    /// The byte in a header, or 0 where its version hasn't the field.
    pub(crate) fn byte(self, layout: Layout, header: &[u8]) -> u8
        ensures { result ≡ byte_in self layout header.now }
    {
        match self.place(byte_at(header, 0), layout) {
            Some(at) => byte_at(header, usize::from(at)),
            None => 0,
        }
    }

    /// The number in a header, or None where its version hasn't the field.
    pub(crate) fn number(self, layout: Layout, header: &[u8]) -> Option<u32>
        ensures { result ≡ number_in self layout header.now }
    {
        let at = self.place(byte_at(header, 0), layout)?;
        Some(number_at(self.row().size, header, at))
    }
}

// The number of so many bytes at a place.
fn number_at(size: u8, bytes: &[u8], at: u8) -> u32
    ensures { result ≡ number_at size bytes.now at }
{
    let at = usize::from(at);
    if size == 1 {
        return u32::from(byte_at(bytes, at));
    }
    if size == 2 {
        return u32::from(big16_at(bytes, at));
    }
    big32_at(bytes, at)
}

/// The compatibility options of a header, a byte each.
pub(crate) fn comp_of(engine: Engine, header: &[u8]) -> &[u8]
    ensures { result.now ≡ comp_of engine header.now }
{
    match engine {
        Engine::Mbf | Engine::PrBoom => part_of(header, 39, 32),
        Engine::Mbf21 => part_of(header, 33, usize::from(byte_at(header, 32))),
        _ => part_of(header, 0, 0),
    }
}
