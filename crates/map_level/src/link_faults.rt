//! Tests of a level's links: one for each code, at an index.

ghost use Rattle.std.specs.Prelude.{◌≡◌, ◌-◌, ◌≤◌, ◌↔◌, ℕ, length, Some, IsTrue};
ghost use Rattle.std.specs.List.{slice_get};
ghost use Rattle.map_level.specs.Reading.{number_of, linedef_under, seg_under, ssector_under};
ghost use Rattle.map_level.specs.Links.{vertexes_of, segs_of, NamesNone, no_side, side_of};
ghost use Rattle.map_level.specs.LinkFaults.{LinedefVertexNamesNone, SideNamesNone};
ghost use Rattle.map_level.specs.LinkFaults.{LinedefSideNamesNone, SidedefSectorNamesNone};
ghost use Rattle.map_level.specs.LinkFaults.{SegVertexNamesNone, SegLinedefNamesNone, SegSideOther};
ghost use Rattle.map_level.specs.LinkFaults.{SegWithoutSide, GoesPast, IsOutOfRange};
ghost use Rattle.map_level.specs.LinkFaults.{SsectorOutOfRange, NoSsector};
ghost use Rattle.map_level.specs.LinkFaults.{TooManyNodes, usual_names, LumpNameDiffers};
ghost use Rattle.map_level.specs.LinkFaults.{BytesLeftOver, IsTwoSided, TwoSidedWithoutSide};
ghost use Rattle.map_level.specs.LinkFaults.{NoSide0};
ghost use Rattle.map_level.specs.LinkFaults.{AreAtOnePlace, IsOfNoLength, LinedefOfNoLength};
ghost use Rattle.map_level.specs.LinkFaults.{SsectorWithoutSegs, IsStart, NoStart};
ghost use Rattle.map_level.specs.LinkFaults.{IsOutside, VertexOutside};

use crate::level::Level;
use crate::links::{
    is_no_side, linedef_at, linedef_count, named, names_none, no_side, seg_at, seg_count, side_of,
    sidedef_at, sidedef_count, ssector_at, ssector_count, vertex,
};
use crate::reading::number;
use le_rec::{LineDef, Name8, SSector, Seg, Vertex};

// The flag of a linedef that has two sides (ML_TWOSIDED of doomdata.h).
const TWO_SIDED: i16 = 4;

// The most nodes of a sound level: each number is below NF_SUBSECTOR of doomdata.h, the bit for
// ssectors.
const MAX_NODES: usize = 32_767;

// The coordinates for which R_PointOnSide of r_main.c doesn't wrap.
const MIN_COORDINATE: i16 = -16384;

const MAX_COORDINATE: i16 = 16383;

// Whether a word names no vertex.
#[inline]
fn names_no_vertex(level: &Level<'_>, word: i16) -> bool
    ensures { IsTrue result ↔ NamesNone (vertexes_of level.now) (number_of level.now.reading word) }
{
    names_none(number(word, level.reading()), level.vertexes().len())
}

/// F3 at that index: a linedef's v1 or v2 names no vertex.
#[inline]
pub fn linedef_vertex_names_none(level: &Level<'_>, i: u32) -> bool
    ensures { IsTrue result ↔ LinedefVertexNamesNone level.now i }
{
    match linedef_at(level, i as usize) {
        Some(linedef) => names_no_vertex(level, linedef.v1) || names_no_vertex(level, linedef.v2),
        None => false,
    }
}

/// F7 at that index: a seg's linedef names none.
#[inline]
pub fn seg_linedef_names_none(level: &Level<'_>, i: u32) -> bool
    ensures { IsTrue result ↔ SegLinedefNamesNone level.now i }
{
    match seg_at(level, i as usize) {
        Some(seg) => names_none(number(seg.linedef, level.reading()), linedef_count(level)),
        None => false,
    }
}

/// F4 at that index: a linedef's side0 or side1 is there and names no sidedef.
#[inline]
pub fn linedef_side_names_none(level: &Level<'_>, i: u32) -> bool
    ensures { IsTrue result ↔ LinedefSideNamesNone level.now i }
{
    match linedef_at(level, i as usize) {
        Some(linedef) => side_names_none(level, linedef.side0)
            || side_names_none(level, linedef.side1),
        None => false,
    }
}

#[inline]
fn side_names_none(level: &Level<'_>, word: i16) -> bool
    ensures { IsTrue result ↔ SideNamesNone level.now (number_of level.now.reading word) }
{
    let side = number(word, level.reading());
    side != no_side(level.reading()) && names_none(side, sidedef_count(level))
}

/// F5 at that index: a sidedef's sector names none.
#[inline]
pub fn sidedef_sector_names_none(level: &Level<'_>, i: u32) -> bool
    ensures { IsTrue result ↔ SidedefSectorNamesNone level.now i }
{
    match sidedef_at(level, i as usize) {
        Some(sidedef) => names_none(
            number(sidedef.sector, level.reading()),
            level.sectors().len(),
        ),
        None => false,
    }
}

/// F6 at that index: a seg's v1 or v2 names no vertex.
#[inline]
pub fn seg_vertex_names_none(level: &Level<'_>, i: u32) -> bool
    ensures { IsTrue result ↔ SegVertexNamesNone level.now i }
{
    match seg_at(level, i as usize) {
        Some(seg) => names_no_vertex(level, seg.v1) || names_no_vertex(level, seg.v2),
        None => false,
    }
}

/// F8 at that index: a seg's side is not 0 or 1.
#[inline]
pub fn seg_side_other(level: &Level<'_>, i: u32) -> bool
    ensures { IsTrue result ↔ SegSideOther level.now i }
{
    match seg_at(level, i as usize) {
        Some(seg) => seg.side != 0 && seg.side != 1,
        None => false,
    }
}

/// F9 at that index: a seg's linedef is there and has no side at the seg's side number, 0 or 1.
#[inline]
pub fn seg_without_side(level: &Level<'_>, i: u32) -> bool
    ensures { IsTrue result ↔ SegWithoutSide level.now i }
{
    match seg_at(level, i as usize) {
        Some(seg) => has_no_side(level, &seg),
        None => false,
    }
}

#[inline]
fn has_no_side(level: &Level<'_>, seg: &Seg) -> bool
    ensures { IsTrue result
        ↔ (side_of level.now (seg_under level.now.reading seg.now)
        ≡ Some (no_side level.now.reading)) }
{
    match side_of(level, seg) {
        Some(side) => side == no_side(level.reading()),
        None => false,
    }
}

/// F10 at that index: an ssector's segs are not all there.
#[inline]
pub fn ssector_out_of_range(level: &Level<'_>, i: u32) -> bool
    ensures { IsTrue result ↔ SsectorOutOfRange level.now i }
{
    match ssector_at(level, i as usize) {
        Some(ssector) => is_out_of_range(level, &ssector),
        None => false,
    }
}

#[inline]
fn is_out_of_range(level: &Level<'_>, ssector: &SSector) -> bool
    ensures { IsTrue result
        ↔ IsOutOfRange (length (segs_of level.now)) (ssector_under level.now.reading ssector.now) }
{
    let reading = level.reading();
    goes_past(
        number(ssector.count, reading),
        number(ssector.first, reading),
        seg_count(level),
    )
}

#[inline]
fn goes_past(count: i32, first: i32, segs: usize) -> bool
    ensures { IsTrue result ↔ GoesPast segs count first }
{
    if count < 0 || names_none(first, segs) {
        return true;
    }
    count as usize > segs - first as usize
}

/// F17 at that index: there is no ssector.
#[inline]
pub fn no_ssector(level: &Level<'_>, i: u32) -> bool
    ensures { IsTrue result ↔ NoSsector level.now i }
{
    i == 0 && ssector_count(level) == 0
}

/// F18 at that index: there are more than 32767 nodes.
#[inline]
pub fn too_many_nodes(level: &Level<'_>, i: u32) -> bool
    ensures { IsTrue result ↔ TooManyNodes level.now i }
{
    i == 0 && level.nodes().len() > MAX_NODES
}

/// N1 at that index: the name of lump k, from 1 to 10, is not the usual one.
pub fn lump_name_differs(level: &Level<'_>, k: u32) -> bool
    ensures { IsTrue result ↔ LumpNameDiffers level.now k }
{
    if k < 1 || k > 10 {
        return false;
    }
    level.name(k as usize) != usual_name(k as usize)
}

/// The usual name of lump k, from 1 to 10 (`ML_THINGS` to `ML_BLOCKMAP` of doomdata.h).
pub fn usual_name(k: usize) -> Name8
    requires from { 1 ≤ k }
    requires to { k ≤ 10 }
    ensures { slice_get usual_names (k - 1) ≡ Some result }
{
    match k {
        1 => Name8::query(b"THINGS"),
        2 => Name8::query(b"LINEDEFS"),
        3 => Name8::query(b"SIDEDEFS"),
        4 => Name8::query(b"VERTEXES"),
        5 => Name8::query(b"SEGS"),
        6 => Name8::query(b"SSECTORS"),
        7 => Name8::query(b"NODES"),
        8 => Name8::query(b"SECTORS"),
        9 => Name8::query(b"REJECT"),
        _ => Name8::query(b"BLOCKMAP"),
    }
}

/// N2 at that index: bytes are left over in lump k, from 1 to 8.
pub fn bytes_left_over(level: &Level<'_>, k: u32) -> bool
    ensures { IsTrue result ↔ BytesLeftOver level.now k }
{
    match k {
        1 => level.things().rest() > 0,
        2 => level.linedefs().rest() > 0,
        3 => level.sidedefs().rest() > 0,
        4 => level.vertexes().rest() > 0,
        5 => level.segs().rest() > 0,
        6 => level.ssectors().rest() > 0,
        7 => level.nodes().rest() > 0,
        8 => level.sectors().rest() > 0,
        _ => false,
    }
}

/// N3 at that index: a linedef is flagged as two-sided and has no side 1.
#[inline]
pub fn two_sided_without_side(level: &Level<'_>, i: u32) -> bool
    ensures { IsTrue result ↔ TwoSidedWithoutSide level.now i }
{
    match linedef_at(level, i as usize) {
        Some(linedef) => is_two_sided(linedef.flags) && is_no_side(level, linedef.side1),
        None => false,
    }
}

#[inline]
fn is_two_sided(flags: i16) -> bool
    ensures { IsTrue result ↔ IsTwoSided flags }
{
    flags & TWO_SIDED != 0
}

/// N4 at that index: a linedef has no side 0.
#[inline]
pub fn no_side0(level: &Level<'_>, i: u32) -> bool
    ensures { IsTrue result ↔ NoSide0 level.now i }
{
    match linedef_at(level, i as usize) {
        Some(linedef) => is_no_side(level, linedef.side0),
        None => false,
    }
}

/// N5 at that index: a linedef's vertexes exist and have the same x and y.
#[inline]
pub fn linedef_of_no_length(level: &Level<'_>, i: u32) -> bool
    ensures { IsTrue result ↔ LinedefOfNoLength level.now i }
{
    match linedef_at(level, i as usize) {
        Some(linedef) => is_of_no_length(level, &linedef),
        None => false,
    }
}

#[inline]
fn is_of_no_length(level: &Level<'_>, linedef: &LineDef) -> bool
    ensures { IsTrue result ↔ IsOfNoLength level.now (linedef_under level.now.reading linedef.now) }
{
    are_at_one_place(vertex(level, linedef.v1), vertex(level, linedef.v2))
}

#[inline]
fn are_at_one_place(a: Option<Vertex>, b: Option<Vertex>) -> bool
    ensures { IsTrue result ↔ AreAtOnePlace a b }
{
    match (a, b) {
        (Some(a), Some(b)) => is_one_place(&a, &b),
        _ => false,
    }
}

#[inline]
fn is_one_place(a: &Vertex, b: &Vertex) -> bool
    ensures { IsTrue result ↔ ((a.now.x ≡ b.now.x) × (a.now.y ≡ b.now.y)) }
{
    a.x == b.x && a.y == b.y
}

/// N6 at that index: an ssector has no segs.
#[inline]
pub fn ssector_without_segs(level: &Level<'_>, i: u32) -> bool
    ensures { IsTrue result ↔ SsectorWithoutSegs level.now i }
{
    match ssector_at(level, i as usize) {
        Some(ssector) => number(ssector.count, level.reading()) == 0,
        None => false,
    }
}

/// N11 at that index: no thing is a start of player 1.
#[inline]
pub fn no_start(level: &Level<'_>, i: u32) -> bool
    ensures { IsTrue result ↔ NoStart level.now i }
{
    i == 0 && !has_start(level)
}

// Whether some thing is a start of player 1.
fn has_start(level: &Level<'_>) -> bool
    ensures { IsTrue result ↔ ((k : ℕ) × IsStart level.now k) }
{
    for k in 0..level.things().len() {
        if is_start(level, k) {
            return true;
        }
    }
    false
}

#[inline]
fn is_start(level: &Level<'_>, k: usize) -> bool
    ensures { IsTrue result ↔ IsStart level.now k }
{
    match level.things().get(k) {
        Some(thing) => thing.kind == 1,
        None => false,
    }
}

/// N12 at that index: a vertex is out of range.
#[inline]
pub fn vertex_outside(level: &Level<'_>, i: u32) -> bool
    ensures { IsTrue result ↔ VertexOutside level.now i }
{
    match level.vertexes().get(i as usize) {
        Some(vertex) => is_outside(vertex.x) || is_outside(vertex.y),
        None => false,
    }
}

#[inline]
fn is_outside(z: i16) -> bool
    ensures { IsTrue result ↔ IsOutside z }
{
    z < MIN_COORDINATE || z > MAX_COORDINATE
}
