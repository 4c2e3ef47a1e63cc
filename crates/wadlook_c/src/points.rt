//! The sectors of many points.

ghost use Rattle.std.specs.Prelude.{◌≡◌, ◌∷◌, [], ◌<◌, ◌≤◌, IfErr, OnOk, IfOk, drop, length};
ghost use Rattle.map_level.specs.Level.{Level};
ghost use Rattle.look_engines.specs.Opening.{IsAccepted, RefusesAccepted, bytes_of};
ghost use Rattle.wadlook_c.specs.Ends.{EndsBy, reading_of};
ghost use Rattle.wadlook_c.specs.Places.{TellsLeaf, TellsPlace, TellsPlaces};
ghost use Rattle.wadlook_c.specs.Status.{no_room_number, number_of};

use crate::opening::{open_level, reading_of};
use crate::status::{DONE, NO_ROOM, number_of};
use look_engines::{RunFault, sector_tree};
use map_geo::Point;
use map_level::Reading;
use map_tree::SectorTree;
use std::alloc::{Allocator, Global};

/// A point, in map units.
#[repr(C)]
#[derive(Clone, Copy)]
pub struct WadlookPoint {
    pub x: i32,
    pub y: i32,
}

/// Where a point lies: an ssector and its sector.
#[repr(C)]
#[derive(Clone, Copy)]
pub struct WadlookPlace {
    pub ssector: u16,
    pub sector: u16,
}

/// The answer for a point out of range: ssector 65535, which no level has.
pub const NOWHERE: WadlookPlace = WadlookPlace {
    ssector: 65535,
    sector: 65535,
};

/// Writes to `out`, at each point's number, the ssector and the sector of the point in the named level of one file. It
/// returns 0. Otherwise nothing is written, and it returns the status of the refusal.
#[unsafe(no_mangle)]
pub extern "C" fn wadlook_points(
    alloc: Global,
    wad: &[u8],
    name: &[u8],
    wide: bool,
    points: &[WadlookPoint],
    out: &mut [WadlookPlace],
) -> u32
    ensures done { result ≡ 0 → (level : Level) × IsAccepted (wad.now ∷ []) name.now (reading_of wide) level
        × TellsPlaces level points.now out.new }
    ensures room { result ≡ no_room_number → length out.old < length points.now }
    ensures fits { ¬ (result ≡ no_room_number) → length points.now ≤ length out.old }
    ensures refused { ¬ (result ≡ 0) → ¬ (result ≡ no_room_number)
        → EndsBy (RefusesAccepted (wad.now ∷ []) name.now (reading_of wide)) result }
    ensures behind { drop (length points.now) out.new ≡ drop (length points.now) out.old }
    ensures untouched { ¬ (result ≡ 0) → out.new ≡ out.old }
{
    if out.len() < points.len() {
        return NO_ROOM;
    }
    match places(alloc, wad, name, reading_of(wide), points, out) {
        Ok(()) => DONE,
        Err(fault) => number_of(fault),
    }
}

fn places(
    alloc: Global,
    wad: &[u8],
    name: &[u8],
    reading: Reading,
    points: &[WadlookPoint],
    out: &mut [WadlookPlace],
) -> Result<(), RunFault>
    requires { length points.now ≤ length out.old }
    ensures ok { OnOk result ((level : Level) × IsAccepted (wad.now ∷ []) name.now reading level
        × TellsPlaces level points.now out.new) }
    ensures err { IfErr result (RefusesAccepted (wad.now ∷ []) name.now reading) }
    ensures behind { drop (length points.now) out.new ≡ drop (length points.now) out.old }
    ensures untouched { IfErr result (λ _. out.new ≡ out.old) }
{
    let level = open_level(alloc, wad, name, reading)?;
    let tree = sector_tree(alloc, &level)?;
    put_places(&tree, points, out);
    Ok(())
}

/// Writes the place of each point.
pub fn put_places<A: Allocator>(
    tree: &SectorTree<'_, '_, A>,
    points: &[WadlookPoint],
    out: &mut [WadlookPlace],
)
    requires { length points.now ≤ length out.old }
    ensures told { TellsPlaces tree.now points.now out.new }
    ensures behind { drop (length points.now) out.new ≡ drop (length points.now) out.old }
{
    for i in 0..points.len() {
        out[i] = place_of(tree, points[i]);
    }
}

// The place of a point.
fn place_of<A: Allocator>(tree: &SectorTree<'_, '_, A>, asked: WadlookPoint) -> WadlookPlace
    ensures { TellsPlace tree.now asked result }
{
    match Point::new(asked.x, asked.y) {
        Some(point) => leaf_of(tree, point),
        None => NOWHERE,
    }
}

// The leaf of a point in range.
fn leaf_of<A: Allocator>(tree: &SectorTree<'_, '_, A>, point: Point) -> WadlookPlace
    ensures { TellsLeaf tree.now point result }
{
    let (ssector, sector) = tree.leaf(point);
    WadlookPlace { ssector, sector }
}
