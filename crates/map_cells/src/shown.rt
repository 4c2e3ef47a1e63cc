//! Which sector is shown at a point.

ghost use Rattle.std.specs.Prelude.{◌≡◌, ◌↔◌, ◌<◌, ◌≤◌, ◌≤ℤ◌, ◌<ℤ◌, ◌-ℤ◌, ◌*ℤ◌, ℕ, pos, negsuc, unsigned_abs};
ghost use Rattle.std.specs.Prelude.{Some, None, IfOk, IsTrue};
ghost use Rattle.map_geo.specs.Point.{IsInRange};
ghost use Rattle.map_level.specs.Reading.{number_of};
ghost use Rattle.map_tree.specs.SectorList.{ListsSectors};
ghost use Rattle.map_tree.specs.Sound.{IsSound};
ghost use Rattle.map_cells.specs.Shown.{cross, IsBehind, IsFromOn, IsSegOf, IsShown};

use crate::ends::{Ends, line_ends};
use map_geo::Point;
use map_level::{Level, number};
use map_tree::{SectorTree, Tree};
use std::alloc::{AllocError, Allocator, Global};
use std::marker::Model;

/// A sound level that can be asked which sector is shown at a point. It borrows the level, and lists the sectors of its ssectors.
#[derive(Drop)]
pub struct Shown<'l, 'a, A: Allocator = Global> {
    level: &'l Level<'a>,
    tree: SectorTree<'l, 'a, A>,
}

impl<'l, 'a, A: Allocator> Model for Shown<'l, 'a, A> {
    ghost use Rattle.std.specs.Prelude.{◌≡◌};
    ghost use Rattle.map_level.specs.Level.{Level};
    ghost use Rattle.map_tree.specs.Sound.{IsSound};

    ghost Value = { Level };

    ghost view = { λ s. s.level.now };

    ghost invariant = { λ s. IsSound s.level.now × (s.tree ≡ s.level.now) };
}

impl<'l, 'a, A: Allocator> Shown<'l, 'a, A> {
    /// The level, which is sound by `is_sound` or `sound_tree`.
    pub fn of(alloc: A, level: &'l Level<'a>) -> Result<Shown<'l, 'a, A>, AllocError>
        requires { IsSound level.now }
        ensures { IfOk result (λ shown. shown ≡ level.now) }
    {
        let tree = SectorTree::of(alloc, Tree::of(level))?;
        Ok(Shown { level, tree })
    }

    // The level.
    pub(crate) fn level(&self) -> &'l Level<'a>
        ensures is { result.now ≡ self.now }
        ensures sound { IsSound self.now }
    {
        self.level
    }

    // Its allocator.
    pub(crate) fn allocator(&self) -> &A {
        self.tree.allocator()
    }

    // The sector of each ssector, by its number.
    pub(crate) fn sectors(&self) -> &[u16]
        ensures { ListsSectors self.now result.now }
    {
        self.tree.sectors()
    }

    /// The sector that is shown at the point (x, y): where both coordinates are in -16384..16383 that of the point's ssector, unless
    /// the point is behind the linedef of one of the ssector's segs. None elsewhere.
    #[inline(always)]
    pub fn at(&self, x: i32, y: i32) -> Option<u16>
        ensures sector { (s : ℕ) → (result ≡ Some s) ↔ IsShown self.now x y s }
        ensures none { (result ≡ None) ↔ ((s : ℕ) → ¬ IsShown self.now x y s) }
    {
        let point = Point::new(x, y)?;
        let (ssector, sector) = self.tree.leaf(point);
        is_before_segs(self.level, ssector, point).then_some(sector)
    }
}

/// Whether the point is behind none of the segs of an ssector.
#[inline(always)]
pub fn is_before_segs(level: &Level<'_>, t: u16, point: Point) -> bool
    ensures { IsTrue result ↔ ((i : ℕ) → IsSegOf level.now t i → ¬ IsBehind level.now i point) }
{
    let segs = segs_of(level, t);
    for i in segs.first..segs.end {
        if is_behind(level, i, point) {
            return false;
        }
    }
    true
}

/// Numbers of segs, from the first up to the end, without it.
#[derive(Clone, Copy)]
pub struct SegRange {
    pub first: usize,
    pub end: usize,
}

/// The segs of an ssector.
#[inline]
pub fn segs_of(level: &Level<'_>, t: u16) -> SegRange
    ensures { (i : ℕ) → IsSegOf level.now t i ↔ ((result.first ≤ i) × (i < result.end)) }
{
    match level.ssectors().get(usize::from(t)) {
        Some(ssector) => seg_range(level, &ssector.first, &ssector.count),
        None => SegRange { first: 0, end: 0 },
    }
}

// The segs that two words of an ssector name.
#[inline]
fn seg_range(level: &Level<'_>, first: &i16, count: &i16) -> SegRange
    ensures { (i : ℕ) → IsFromOn (number_of level.now.reading first.now) (number_of level.now.reading count.now) i
        ↔ ((result.first ≤ i) × (i < result.end)) }
{
    let first = index_of(level, first);
    let end = first + index_of(level, count);
    SegRange {
        first: first.max(0) as usize,
        end: end.max(0) as usize,
    }
}

// A word as an index under the level's reading.
#[inline]
fn index_of(level: &Level<'_>, word: &i16) -> i32
    ensures value { result ≡ number_of level.now.reading word.now }
    ensures above { negsuc 32767 ≤ℤ result }
    ensures below { result <ℤ pos 65536 }
{
    number(*word, level.reading())
}

// Whether the point is behind the seg of a number, by the linedef along which that runs.
#[inline]
fn is_behind(level: &Level<'_>, i: usize, point: Point) -> bool
    ensures { IsTrue result ↔ IsBehind level.now i point }
{
    match line_ends(level, i) {
        Some(ends) => cross(&ends, point) < 0,
        None => false,
    }
}

/// Below 0 if the point is behind. At most twice 65,535 times 49,151 in size, so it needs more than 32 bits.
#[inline]
pub fn cross(ends: &Ends, point: Point) -> i64
    ensures { result ≡ cross ends.now point }
{
    let right = product(rise(&ends.from.y, &ends.to.y), run(&ends.from.x, point.x()));
    let left = product(rise(&ends.from.x, &ends.to.x), run(&ends.from.y, point.y()));
    right - left
}

// How far it is from one coordinate of a vertex to another's.
#[inline]
fn rise(from: &i16, to: &i16) -> i64
    ensures value { result ≡ to.now -ℤ from.now }
    ensures size { unsigned_abs result ≤ 65535 }
{
    i64::from(*to) - i64::from(*from)
}

// How far it is from a coordinate of a vertex to a point's.
#[inline]
fn run(from: &i16, to: i32) -> i64
    requires { IsInRange to }
    ensures value { result ≡ to -ℤ from.now }
    ensures size { unsigned_abs result ≤ 65535 }
{
    i64::from(to) - i64::from(*from)
}

#[inline]
fn product(a: i64, b: i64) -> i64
    requires a_in { unsigned_abs a ≤ 65535 }
    requires b_in { unsigned_abs b ≤ 65535 }
    ensures value { result ≡ a *ℤ b }
    ensures size { unsigned_abs result ≤ 4294836225 }
{
    a * b
}
