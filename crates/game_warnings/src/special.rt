//! Linedefs with a special.

ghost use Rattle.std.specs.Prelude.{◌↔◌, IsTrue};
ghost use Rattle.game_warnings.specs.Special.{HasSpecial};

use map_level::Level;
use map_level::links::linedef_at;

/// Whether the linedef of a number has a special. Most have none, and need no further test.
#[inline]
pub fn has_special(level: &Level<'_>, i: u32) -> bool
    ensures { IsTrue result ↔ HasSpecial level.now i }
{
    match linedef_at(level, i as usize) {
        Some(linedef) => linedef.special != 0,
        None => false,
    }
}
