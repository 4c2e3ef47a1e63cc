//! The sides of linedefs along which segs run.

ghost use Rattle.std.specs.Prelude.{◌≡◌, ◌↔◌, IsTrue, Some};
ghost use Rattle.map_level.specs.Links.{no_side};
ghost use Rattle.later_levels.specs.SegFaults.{line_in, side_of};

use map_level::Level;
use map_level::links::{linedef_at, no_side, side_at};
use node_lumps::{LaterNodes, SegLine};

/// The linedef's side along which a seg runs; None of a miniseg, and where there are fewer segs.
#[inline]
pub fn line_at(nodes: &LaterNodes<'_>, i: usize) -> Option<SegLine>
    ensures { result ≡ line_in nodes.now i }
{
    let seg = nodes.seg(i)?;
    seg.line
}

/// The index of the sidedef at a linedef's side; None where there is no such linedef, or the side is neither 0 nor 1.
#[inline]
pub fn side_of(level: &Level<'_>, line: SegLine) -> Option<i32>
    ensures { result ≡ side_of level.now line }
{
    let linedef = linedef_at(level, line.linedef as usize)?;
    side_at(&linedef, level.reading(), line.side)
}

/// Whether a linedef's side is 0 or 1, and the linedef, which is there, has no sidedef there.
#[inline]
pub fn has_no_side(level: &Level<'_>, line: SegLine) -> bool
    ensures { IsTrue result ↔ (side_of level.now line ≡ Some (no_side level.now.reading)) }
{
    match side_of(level, line) {
        Some(side) => side == no_side(level.reading()),
        None => false,
    }
}
