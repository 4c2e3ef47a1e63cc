//! Specials of sectors, by what the game does with them.

ghost use Rattle.std.specs.Prelude.{◌≡◌};
ghost use Rattle.game_numbers.specs.Number.{is_one_of};
ghost use Rattle.game_numbers.specs.SectorSpecials.{survived, timed_door, flashing, glowing, exit_floor};

use crate::marks::is_marked;

// Marks of these specials, from 0 on, a row for ten.
const SURVIVED: &[u8] = b"\
    xxxxxx.xxx\
    xxxxx.xx";

const TIMED_DOOR: &[u8] = b"\
    ..........\
    x...x";

const FLASHING: &[u8] = b"\
    .xxxx.....\
    ..xx";

const GLOWING: &[u8] = b"\
    ........x";

const EXIT_FLOOR: &[u8] = b"\
    ..........\
    .x";

/// Whether a player survives to stand on the floor of a sector with a special.
#[inline]
#[tactic(auto, using(crate::proofs::MarkLemmas::survived_marks))]
pub fn is_survived(special: i16) -> bool
    ensures { result ≡ is_one_of survived special }
{
    is_marked(SURVIVED, special)
}

/// Whether a sector of a special is a door that closes or opens by itself.
#[inline]
#[tactic(auto, using(crate::proofs::MarkLemmas::timed_door_marks))]
pub fn is_timed_door(special: i16) -> bool
    ensures { result ≡ is_one_of timed_door special }
{
    is_marked(TIMED_DOOR, special)
}

/// Whether its light flashes.
#[inline]
#[tactic(auto, using(crate::proofs::MarkLemmas::flashing_marks))]
pub fn is_flashing(special: i16) -> bool
    ensures { result ≡ is_one_of flashing special }
{
    is_marked(FLASHING, special)
}

/// Whether its light glows.
#[inline]
#[tactic(auto, using(crate::proofs::MarkLemmas::glowing_marks))]
pub fn is_glowing(special: i16) -> bool
    ensures { result ≡ is_one_of glowing special }
{
    is_marked(GLOWING, special)
}

/// Whether its floor ends the level.
#[inline]
#[tactic(auto, using(crate::proofs::MarkLemmas::exit_floor_marks))]
pub fn is_exit_floor(special: i16) -> bool
    ensures { result ≡ is_one_of exit_floor special }
{
    is_marked(EXIT_FLOOR, special)
}
