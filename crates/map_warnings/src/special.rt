//! Specials of linedefs, by what they do.

ghost use Rattle.std.specs.Prelude.{◌≡◌, ◌↔◌, IsTrue};
ghost use Rattle.map_warnings.specs.Special.{GoesByTag, is_tagged, is_teleport};

use crate::between::is_between;

/// Whether a special goes by the linedef's tag to a sector.
pub fn goes_by_tag(special: i16) -> bool
    ensures { IsTrue result ↔ GoesByTag special }
{
    is_tagged(special) | is_teleport(special)
}

// Whether it acts on the sectors that have the linedef's tag.
fn is_tagged(special: i16) -> bool
    ensures { result ≡ is_tagged special }
{
    is_between(2, 10, special)
        | is_between(12, 25, special)
        | is_between(29, 30, special)
        | is_between(35, 38, special)
        | is_between(40, 47, special)
        | is_between(49, 50, special)
        | is_between(53, 77, special)
        | is_between(79, 84, special)
        | is_between(86, 96, special)
        | is_between(98, 116, special)
        | is_between(119, 123, special)
        | is_between(127, 141, special)
}

// Whether it takes to a thing in a sector that has the linedef's tag.
fn is_teleport(special: i16) -> bool
    ensures { result ≡ is_teleport special }
{
    is_between(39, 39, special) | is_between(97, 97, special) | is_between(125, 126, special)
}
