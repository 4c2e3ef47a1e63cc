//! Bytes left over in the lumps of a level whose nodes stand in a later format.

ghost use Rattle.std.specs.Prelude.{◌↔◌, IsTrue};
ghost use Rattle.later_levels.specs.Left.{BytesLeftOver};

use crate::later_level::LaterLevel;

/// N2 at that index: bytes are left over in lump k, from 1 to 8.
pub fn bytes_left_over(one: &LaterLevel<'_, '_>, k: u32) -> bool
    ensures { IsTrue result ↔ BytesLeftOver one.now k }
{
    let level = one.level();
    let left = one.nodes().left_over();
    match k {
        1 => level.things().rest() > 0,
        2 => level.linedefs().rest() > 0,
        3 => level.sidedefs().rest() > 0,
        4 => left.vertexes > 0,
        5 => left.segs > 0,
        6 => left.ssectors > 0,
        7 => left.nodes > 0,
        8 => level.sectors().rest() > 0,
        _ => false,
    }
}
