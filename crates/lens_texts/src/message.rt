//! What is wrong where a code holds, in words and with the level's values. Each text is put before the line.

ghost use Rattle.std.specs.Prelude.{◌≡◌, ◌+◌, ◌<◌, ◌≤◌, ◌^◌, [], ◌++◌, length, slice_index_or};
ghost use Rattle.std.specs.List.{slice_get};
ghost use Rattle.le_rec.specs.Name.{shown_name};
ghost use Rattle.map_level.specs.LinkFaults.{rests, usual_names};
ghost use Rattle.map_level.specs.declared.finding.Code.TheVariants.{F3, F4, F5, F6, F7, F8, F9, F10, F11, F12, F13, F18, N2, N8, N9, N12};
ghost use Rattle.map_tree.specs.Child.{has, place_of};
ghost use Rattle.map_tree.specs.Paths.{node, ssector};
ghost use Rattle.lens_texts.specs.Message.{is_offset_inside, is_side_missing, list_text, message, missing_text};
ghost use Rattle.lens_texts.specs.Message.{named_text, outside_text, segs_text, sidedef_text, sideless_text, vertex_text, wanted_text, wanted_words};
ghost use Rattle.lens_texts.specs.Place.{index_of, spot_text};

use crate::digits::{prepend_count, prepend_index, prepend_short, prepend_word};
use crate::label::prepend_name;
use crate::place::prepend_spot;
use crate::records::{index_of, spot_at};
use le_rec::{Table, Word};
use line_io::TextLine;
use map_level::links::{named, no_side};
use map_level::{Code, Level, usual_name};
use map_tables::blocks_along;
use map_tree::NF_SUBSECTOR;

/// Puts what is wrong where a code holds at an index before the line; nothing where there is no such record.
pub fn prepend_message(line: &mut TextLine, level: &Level<'_>, code: Code, index: u32)
    requires { length line.old ≤ 44 }
    ensures text { line.new ≡ message level.now code index line.old }
    ensures length { length line.new ≤ length line.old + 74 }
{
    let i = index as usize;
    match code {
        Code::F3 => prepend_linedef_vertex(line, level, i),
        Code::F4 => prepend_linedef_side(line, level, i),
        Code::F5 => prepend_sidedef_sector(line, level, i),
        Code::F6 => prepend_seg_vertex(line, level, i),
        Code::F7 => prepend_seg_linedef(line, level, i),
        Code::F8 => prepend_seg_side(line, level, i),
        Code::F9 => prepend_seg_sideless(line, level, i),
        Code::F10 => prepend_ssector_segs(line, level, i),
        Code::F11 => prepend_child(line, level, i),
        Code::F12 => prepend_origin(line, level, i),
        Code::F13 => prepend_named_twice(line, level, i),
        Code::F14 => line.prepend_bytes(b"not reached from the root"),
        Code::F15 => line.prepend_bytes(b"named more than once"),
        Code::F16 => line.prepend_bytes(b"not reached from the root"),
        Code::F17 => line.prepend_bytes(b"no ssector"),
        Code::F18 => prepend_nodes(line, level),
        Code::N2 => prepend_left_over(line, level, i),
        Code::N3 => line.prepend_bytes(b"two-sided, without a back sidedef"),
        Code::N4 => line.prepend_bytes(b"without a front sidedef"),
        Code::N5 => line.prepend_bytes(b"without length"),
        Code::N6 => line.prepend_bytes(b"without segs"),
        Code::N7 => line.prepend_bytes(b"without direction"),
        Code::N8 => prepend_reject(line, level),
        Code::N9 => prepend_blockmap(line, level),
        Code::N10 => prepend_list(line, level, i),
        Code::N11 => line.prepend_bytes(b"no player 1 start"),
        Code::N12 => prepend_vertex(line, level, i),
        Code::F1 | Code::F2 | Code::N1 => {}
    }
}

// `WHAT V isn't there (N NOUN)`
fn prepend_missing(
    line: &mut TextLine,
    level: &Level<'_>,
    what: &[u8],
    word: &i16,
    count: usize,
    noun: &[u8],
)
    requires what { length what.now ≤ 14 }
    requires noun { length noun.now ≤ 10 }
    requires few { count < 2 ^ 32 }
    requires room { length line.old ≤ 44 }
    ensures text { line.new ≡ missing_text what.now (index_of level.now word.now) count noun.now line.old }
    ensures length { length line.new ≤ length line.old + 54 }
{
    line.prepend_bytes(noun);
    prepend_count(line, count);
    line.prepend_bytes(b" isn't there (");
    prepend_index(line, level.reading(), word);
    line.prepend_bytes(what);
}

// F3
fn prepend_linedef_vertex(line: &mut TextLine, level: &Level<'_>, i: usize)
    requires { length line.old ≤ 44 }
    ensures text { line.new ≡ message level.now F3 i line.old }
    ensures length { length line.new ≤ length line.old + 68 }
{
    if let Some(linedef) = level.linedefs().get(i) {
        prepend_vertexes(line, level, &linedef.v1, &linedef.v2);
    }
}

// F6
fn prepend_seg_vertex(line: &mut TextLine, level: &Level<'_>, i: usize)
    requires { length line.old ≤ 44 }
    ensures text { line.new ≡ message level.now F6 i line.old }
    ensures length { length line.new ≤ length line.old + 68 }
{
    if let Some(seg) = level.segs().get(i) {
        prepend_vertexes(line, level, &seg.v1, &seg.v2);
    }
}

// The start of a linedef or seg, or its end where the start is there.
fn prepend_vertexes(line: &mut TextLine, level: &Level<'_>, v1: &i16, v2: &i16)
    requires { length line.old ≤ 44 }
    ensures text { line.new ≡ vertex_text level.now v1.now v2.now line.old }
    ensures length { length line.new ≤ length line.old + 54 }
{
    let count = level.vertexes().len();
    if spot_at(level, *v1).is_some() {
        prepend_missing(line, level, b"end vertex ", v2, count, b" vertexes)");
    } else {
        prepend_missing(line, level, b"start vertex ", v1, count, b" vertexes)");
    }
}

// F4
fn prepend_linedef_side(line: &mut TextLine, level: &Level<'_>, i: usize)
    requires { length line.old ≤ 44 }
    ensures text { line.new ≡ message level.now F4 i line.old }
    ensures length { length line.new ≤ length line.old + 68 }
{
    if let Some(linedef) = level.linedefs().get(i) {
        prepend_sides(line, level, &linedef.side0, &linedef.side1);
    }
}

// The front sidedef, or the back one where that isn't missing.
fn prepend_sides(line: &mut TextLine, level: &Level<'_>, side0: &i16, side1: &i16)
    requires { length line.old ≤ 44 }
    ensures text { line.new ≡ sidedef_text level.now side0.now side1.now line.old }
    ensures length { length line.new ≤ length line.old + 54 }
{
    let count = level.sidedefs().len();
    if is_side_missing(level, side0) {
        prepend_missing(line, level, b"front sidedef ", side0, count, b" sidedefs)");
    } else {
        prepend_missing(line, level, b"back sidedef ", side1, count, b" sidedefs)");
    }
}

// Whether a linedef's word for a side names a sidedef that isn't there.
fn is_side_missing(level: &Level<'_>, word: &i16) -> bool
    ensures { result ≡ is_side_missing level.now word.now }
{
    let index = index_of(level, *word);
    index != no_side(level.reading()) && named(&level.sidedefs(), index).is_none()
}

// F5
fn prepend_sidedef_sector(line: &mut TextLine, level: &Level<'_>, i: usize)
    requires { length line.old ≤ 44 }
    ensures text { line.new ≡ message level.now F5 i line.old }
    ensures length { length line.new ≤ length line.old + 68 }
{
    if let Some(sidedef) = level.sidedefs().get(i) {
        let count = level.sectors().len();
        prepend_missing(
            line,
            level,
            b"sector ",
            &sidedef.sector,
            count,
            b" sectors)",
        );
    }
}

// F7
fn prepend_seg_linedef(line: &mut TextLine, level: &Level<'_>, i: usize)
    requires { length line.old ≤ 44 }
    ensures text { line.new ≡ message level.now F7 i line.old }
    ensures length { length line.new ≤ length line.old + 68 }
{
    if let Some(seg) = level.segs().get(i) {
        let count = level.linedefs().len();
        prepend_missing(line, level, b"linedef ", &seg.linedef, count, b" linedefs)");
    }
}

// F8
fn prepend_seg_side(line: &mut TextLine, level: &Level<'_>, i: usize)
    requires { length line.old ≤ 44 }
    ensures text { line.new ≡ message level.now F8 i line.old }
    ensures length { length line.new ≤ length line.old + 68 }
{
    if let Some(seg) = level.segs().get(i) {
        line.prepend_bytes(b" is neither 0 nor 1");
        prepend_word(line, &seg.side);
        line.prepend_bytes(b"side ");
    }
}

// F9
fn prepend_seg_sideless(line: &mut TextLine, level: &Level<'_>, i: usize)
    requires { length line.old ≤ 44 }
    ensures text { line.new ≡ message level.now F9 i line.old }
    ensures length { length line.new ≤ length line.old + 68 }
{
    if let Some(seg) = level.segs().get(i) {
        prepend_sideless(line, level, &seg.linedef, &seg.side);
    }
}

// The linedef of a seg has no sidedef on its side.
fn prepend_sideless(line: &mut TextLine, level: &Level<'_>, linedef: &i16, side: &i16)
    requires { length line.old ≤ 44 }
    ensures text { line.new ≡ sideless_text level.now linedef.now side.now line.old }
    ensures length { length line.new ≤ length line.old + 44 }
{
    prepend_word(line, side);
    line.prepend_bytes(b" has no sidedef on side ");
    prepend_index(line, level.reading(), linedef);
    line.prepend_bytes(b"linedef ");
}

// F10
fn prepend_ssector_segs(line: &mut TextLine, level: &Level<'_>, i: usize)
    requires { length line.old ≤ 44 }
    ensures text { line.new ≡ message level.now F10 i line.old }
    ensures length { length line.new ≤ length line.old + 68 }
{
    if let Some(ssector) = level.ssectors().get(i) {
        prepend_segs(line, level, &ssector.first, &ssector.count);
    }
}

// The first seg of an ssector, and the number of its segs by its record.
fn prepend_segs(line: &mut TextLine, level: &Level<'_>, first: &i16, count: &i16)
    requires { length line.old ≤ 44 }
    ensures text { line.new ≡ segs_text level.now first.now count.now line.old }
    ensures length { length line.new ≤ length line.old + 68 }
{
    line.prepend_bytes(b" segs)");
    prepend_count(line, level.segs().len());
    line.prepend_bytes(b" of them, aren't all there (");
    prepend_index(line, level.reading(), count);
    line.prepend_bytes(b", ");
    prepend_index(line, level.reading(), first);
    line.prepend_bytes(b"segs from ");
}

// F11
fn prepend_child(line: &mut TextLine, level: &Level<'_>, i: usize)
    requires { length line.old ≤ 44 }
    ensures text { line.new ≡ message level.now F11 i line.old }
    ensures length { length line.new ≤ length line.old + 68 }
{
    if let Some(node) = level.nodes().get(i) {
        if is_there(level, node.child0) {
            prepend_named(line, level, node.child1);
            line.prepend_bytes(b"child 1");
        } else {
            prepend_named(line, level, node.child0);
            line.prepend_bytes(b"child 0");
        }
    }
}

// Whether the level has what a child word names.
fn is_there(level: &Level<'_>, word: u16) -> bool
    ensures { result ≡ has level.now (place_of word) }
{
    if word < NF_SUBSECTOR {
        (word as usize) < level.nodes().len()
    } else {
        ((word - NF_SUBSECTOR) as usize) < level.ssectors().len()
    }
}

// What a child word names.
fn prepend_named(line: &mut TextLine, level: &Level<'_>, word: u16)
    requires { length line.old ≤ 44 }
    ensures text { line.new ≡ named_text level.now (place_of word) line.old }
    ensures length { length line.new ≤ length line.old + 61 }
{
    if word < NF_SUBSECTOR {
        prepend_named_node(line, level, word);
    } else {
        prepend_named_ssector(line, level, word - NF_SUBSECTOR);
    }
}

fn prepend_named_node(line: &mut TextLine, level: &Level<'_>, n: u16)
    requires { length line.old ≤ 44 }
    ensures text { line.new ≡ named_text level.now (node n) line.old }
    ensures length { length line.new ≤ length line.old + 55 }
{
    line.prepend_bytes(b" nodes)");
    prepend_count(line, level.nodes().len());
    line.prepend_bytes(b", which isn't there (");
    prepend_short(line, n);
    line.prepend_bytes(b" names node ");
}

fn prepend_named_ssector(line: &mut TextLine, level: &Level<'_>, t: u16)
    requires { length line.old ≤ 44 }
    ensures text { line.new ≡ named_text level.now (ssector t) line.old }
    ensures length { length line.new ≤ length line.old + 61 }
{
    line.prepend_bytes(b" ssectors)");
    prepend_count(line, level.ssectors().len());
    line.prepend_bytes(b", which isn't there (");
    prepend_short(line, t);
    line.prepend_bytes(b" names ssector ");
}

// F12
fn prepend_origin(line: &mut TextLine, level: &Level<'_>, i: usize)
    requires { length line.old ≤ 44 }
    ensures text { line.new ≡ message level.now F12 i line.old }
    ensures length { length line.new ≤ length line.old + 68 }
{
    if let Some(node) = level.nodes().get(i) {
        prepend_outside(line, &node.x, &node.y);
        line.prepend_bytes(b"origin ");
    }
}

// N12
fn prepend_vertex(line: &mut TextLine, level: &Level<'_>, i: usize)
    requires { length line.old ≤ 44 }
    ensures text { line.new ≡ message level.now N12 i line.old }
    ensures length { length line.new ≤ length line.old + 68 }
{
    if let Some(vertex) = level.vertexes().get(i) {
        prepend_outside(line, &vertex.x, &vertex.y);
    }
}

// Coordinates that are out of range.
fn prepend_outside(line: &mut TextLine, x: &i16, y: &i16)
    requires { length line.old ≤ 44 }
    ensures text { line.new ≡ spot_text x.now y.now (outside_text line.old) }
    ensures length { length line.new ≤ length line.old + 43 }
{
    line.prepend_bytes(b" is outside -16384 to 16383");
    prepend_spot(line, x, y);
}

// F13: the root is the last node.
fn prepend_named_twice(line: &mut TextLine, level: &Level<'_>, i: usize)
    requires { length line.old ≤ 44 }
    ensures text { line.new ≡ message level.now F13 i line.old }
    ensures length { length line.new ≤ length line.old + 68 }
{
    if i == level.nodes().len().saturating_sub(1) {
        line.prepend_bytes(b"the root, and named");
    } else {
        line.prepend_bytes(b"named more than once");
    }
}

// F18
fn prepend_nodes(line: &mut TextLine, level: &Level<'_>)
    requires { length line.old ≤ 44 }
    ensures text { line.new ≡ message level.now F18 0 line.old }
    ensures length { length line.new ≤ length line.old + 68 }
{
    line.prepend_bytes(b" nodes, 32767 are the most");
    prepend_count(line, level.nodes().len());
}

// N2
fn prepend_left_over(line: &mut TextLine, level: &Level<'_>, i: usize)
    requires { length line.old ≤ 44 }
    ensures text { line.new ≡ message level.now N2 i line.old }
    ensures length { length line.new ≤ length line.old + 74 }
{
    let k = i.saturating_sub(1);
    if let Some(left) = left_over(level, k) {
        line.prepend_bytes(b" bytes left over");
        line.prepend_natural(left as u64);
        line.prepend_bytes(b" has ");
        prepend_usual(line, k);
    }
}

// The usual name of a lump, counted from 0; nothing where there is none.
fn prepend_usual(line: &mut TextLine, k: usize)
    requires { length line.old ≤ 85 }
    ensures text { line.new ≡ shown_name (slice_index_or usual_names k []) ++ line.old }
    ensures length { length line.new ≤ length line.old + 32 }
{
    if k < 10 {
        prepend_name(line, usual_name(k + 1));
    }
}

// How many bytes are left over in a lump, counted from 0.
fn left_over(level: &Level<'_>, k: usize) -> Option<usize>
    ensures { result ≡ slice_get (rests level.now) k }
{
    match k {
        0 => Some(level.things().rest()),
        1 => Some(level.linedefs().rest()),
        2 => Some(level.sidedefs().rest()),
        3 => Some(level.vertexes().rest()),
        4 => Some(level.segs().rest()),
        5 => Some(level.ssectors().rest()),
        6 => Some(level.nodes().rest()),
        7 => Some(level.sectors().rest()),
        _ => None,
    }
}

// N8
fn prepend_reject(line: &mut TextLine, level: &Level<'_>)
    requires { length line.old ≤ 44 }
    ensures text { line.new ≡ message level.now N8 0 line.old }
    ensures length { length line.new ≤ length line.old + 68 }
{
    let sectors = level.sectors().len();
    let wanted = (sectors * sectors).div_ceil(8);
    prepend_wanted(line, b"REJECT", level.reject().len(), b" bytes, ", wanted);
}

// N9
fn prepend_blockmap(line: &mut TextLine, level: &Level<'_>)
    requires { length line.old ≤ 44 }
    ensures text { line.new ≡ message level.now N9 0 line.old }
    ensures length { length line.new ≤ length line.old + 68 }
{
    let words = level.blockmap().len() / 2;
    prepend_wanted(line, b"BLOCKMAP", words, b" words, ", wanted_words(level));
}

// `WHAT has N NOUN, V are wanted`
fn prepend_wanted(line: &mut TextLine, what: &[u8], count: usize, noun: &[u8], wanted: usize)
    requires what { length what.now ≤ 8 }
    requires noun { length noun.now ≤ 8 }
    requires few { count < 2 ^ 32 }
    requires room { length line.old ≤ 44 }
    ensures text { line.new ≡ wanted_text what.now count noun.now wanted line.old }
    ensures length { length line.new ≤ length line.old + 62 }
{
    line.prepend_bytes(b" are wanted");
    line.prepend_natural(wanted as u64);
    line.prepend_bytes(noun);
    prepend_count(line, count);
    line.prepend_bytes(b" has ");
    line.prepend_bytes(what);
}

// How many words BLOCKMAP has to have.
fn wanted_words(level: &Level<'_>) -> usize
    ensures { result ≡ wanted_words level.now }
{
    if level.blockmap().len() < 8 {
        return 4;
    }
    4 + blocks_along(level.blockmap(), 2) as usize * blocks_along(level.blockmap(), 3) as usize
}

// N10
fn prepend_list(line: &mut TextLine, level: &Level<'_>, n: usize)
    requires few { n < 2 ^ 32 }
    requires room { length line.old ≤ 44 }
    ensures text { line.new ≡ list_text level.now n line.old }
    ensures length { length line.new ≤ length line.old + 68 }
{
    if is_offset_inside(level, n) {
        line.prepend_bytes(b"its list has no end");
    } else {
        line.prepend_bytes(b"its list isn't inside BLOCKMAP");
    }
}

// Whether the offset of a block names a word of BLOCKMAP.
fn is_offset_inside(level: &Level<'_>, n: usize) -> bool
    requires { n < 2 ^ 32 }
    ensures { result ≡ is_offset_inside level.now n }
{
    let words = Table::<Word>::of(level.blockmap());
    match words.get(4 + n) {
        Some(offset) => named(&words, index_of(level, offset.number)).is_some(),
        None => false,
    }
}
