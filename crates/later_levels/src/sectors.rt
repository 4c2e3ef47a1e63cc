//! The sector of an ssector of later nodes, by its links.

ghost use Rattle.std.specs.Prelude.{◌≡◌, ◌<ℤ◌, pos, take, drop};
ghost use Rattle.map_level.specs.SectorOf.{number_named};
ghost use Rattle.later_levels.specs.SectorOf.{first_line, line_of, sector_faced, sector_of};

use crate::later_level::LaterLevel;
use crate::lines::{line_at, side_of};
use map_level::links::{names_none, sidedef_named};
use map_level::{Level, number};
use node_lumps::{LaterNodes, LaterSsector, NodeLump, SegLine, Ssectors};
use std::alloc::Allocator;

/// The number of the sector of ssector `t`, or None where a link on the way names nothing.
pub fn sector_of<A: Allocator>(
    one: &LaterLevel<'_, '_>,
    ssectors: &Ssectors<'_, A>,
    t: usize,
) -> Option<u16>
    requires { ssectors.now ≡ one.now.later.ssectors }
    ensures { result ≡ sector_of one.now t }
{
    let ssector = ssectors.get(t)?;
    let line = line_of(one.nodes(), ssector)?;
    sector_faced(one.level(), line)
}

// The linedef's side that an ssector has its sector by.
fn line_of(nodes: &LaterNodes<'_>, ssector: LaterSsector) -> Option<SegLine>
    ensures { result ≡ line_of nodes.now ssector }
{
    match nodes.format().lump() {
        NodeLump::Nodes => line_at(nodes, ssector.first as usize),
        NodeLump::Ssectors => first_line(nodes, ssector),
    }
}

// The linedef's side along which the first seg of an ssector runs that isn't a miniseg.
fn first_line(nodes: &LaterNodes<'_>, ssector: LaterSsector) -> Option<SegLine>
    ensures { result ≡ first_line (take ssector.count (drop ssector.first nodes.now.segs)) }
{
    let first = ssector.first as usize;
    for i in first..first + ssector.count as usize {
        if let Some(line) = line_at(nodes, i) {
            return Some(line);
        }
    }
    None
}

// The number of the sector that a linedef's side faces.
fn sector_faced(level: &Level<'_>, line: SegLine) -> Option<u16>
    ensures { result ≡ sector_faced level.now line }
{
    let side = side_of(level, line)?;
    let sidedef = sidedef_named(level, side)?;
    number_named(
        number(sidedef.sector, level.reading()),
        level.sectors().len(),
    )
}

// The number of the record that an index names, of `count` records.
fn number_named(index: i32, count: usize) -> Option<u16>
    requires { index <ℤ pos 65536 }
    ensures { result ≡ number_named count index }
{
    if names_none(index, count) {
        return None;
    }
    Some(index as u16)
}
