//! The command `points`: the sector and the ssector of each point of its input.

ghost use Rattle.std.specs.Prelude.{◌≡◌, ◌≤◌, [], ◌∷◌, IfSome, false, length, map};
ghost use Rattle.std.specs.List.{flat_map};
ghost use Rattle.line_io.specs.Writes.{EndsWriting, TakesText, Writes};
ghost use Rattle.map_geo.specs.Point as geo;
ghost use Rattle.wad_dir.specs.declared.set.TheConstants.{MAX_FILES};
ghost use Rattle.look_engines.specs.Engines.Points.{AreLeaves, RunsPoints, leaf_text, point_text};
ghost use Rattle.look_engines.specs.NamedPoints.{NamesPoints, told_point};
ghost use Rattle.look_engines.specs.declared.engines.points.Leaf as found;

use crate::contents::{NamedPoint, Pair, read_point};
use crate::fault::{RunFault, ended};
use crate::opening::{open_level, sector_tree};
use le_rec::{Sink, Source};
use line_io::{IoFault, LineCommand, MAX_READ, TextLine, answer_lines, emit, split_content};
use map_geo::Point;
use map_level::Reading;
use map_tree::SectorTree;
use std::alloc::Allocator;
use wad_dir::AsBytes;

/// Where a point lies: an ssector and its sector.
#[derive(Clone, Copy, Debug, PartialEq, Eq)]
pub struct Leaf {
    pub ssector: u16,
    pub sector: u16,
}

/// Answers points.
#[derive(Drop)]
struct PointCommand<'l, 'a, A: Allocator> {
    tree: SectorTree<'l, 'a, A>,
}

impl<A: Allocator> LineCommand for PointCommand<'_, '_, A> {
    ghost use Rattle.look_engines.specs.Engines.Points.{TellsPoints};

    ghost Answers = { λ command. TellsPoints command.tree };

    ghost takes_memory = { false };

    fn reply<W: Sink>(&mut self, content: &[u8], out: &mut W) -> Result<(), IoFault> {
        match read_point(content) {
            Ok(named) => {
                let leaf = leaf_at(&self.tree, named.point);
                put_point(named.pair, leaf, out)
            }
            Err(refusal) => emit(out, refusal.text()),
        }
    }

    fn reply_front<W: Sink>(&mut self, block: &[u8], out: &mut W) -> Result<usize, IoFault> {
        let mut rest = block;
        'fours: while let Some((a, b, c, d, after)) = next_four(rest) {
            put_four(&self.tree, a, b, c, d, out)?;
            rest = after;
        }
        Ok(block.len() - rest.len())
    }
}

/// The points that the first four lines name, and the bytes behind those lines.
type NextFour<'a> = (
    NamedPoint<'a>,
    NamedPoint<'a>,
    NamedPoint<'a>,
    NamedPoint<'a>,
    &'a [u8],
);

// None if there are fewer lines, or if one names no point.
#[inline(always)]
fn next_four(bytes: &[u8]) -> Option<NextFour<'_>>
    ensures { IfSome result (λ found. NamesPoints bytes.now (found.0 ∷ found.1 ∷ found.2 ∷ found.3 ∷ []) found.4.now) }
{
    let Some((a, rest)) = next_point(bytes) else {
        return None;
    };
    let Some((b, rest)) = next_point(rest) else {
        return None;
    };
    let Some((c, rest)) = next_point(rest) else {
        return None;
    };
    let Some((d, rest)) = next_point(rest) else {
        return None;
    };
    Some((a, b, c, d, rest))
}

// The point that the first line names, and the bytes behind that line.
#[inline(always)]
fn next_point(bytes: &[u8]) -> Option<(NamedPoint<'_>, &[u8])>
    ensures { IfSome result (λ found. NamesPoints bytes.now (found.0 ∷ []) found.1.now) }
{
    let (content, rest) = split_content(bytes)?;
    match read_point(content) {
        Ok(named) => Some((named, rest)),
        Err(_) => None,
    }
}

// The answers to four points.
#[inline(always)]
fn put_four<A: Allocator, W: Sink>(
    tree: &SectorTree<'_, '_, A>,
    a: NamedPoint<'_>,
    b: NamedPoint<'_>,
    c: NamedPoint<'_>,
    d: NamedPoint<'_>,
    out: &mut W,
) -> Result<(), IoFault>
    requires { (W.state out.old).failed ≡ false }
    ensures takes { (leaf_of : geo.Point → found.Leaf) → AreLeaves tree.now leaf_of
        → TakesText (W.state out.old) (W.state out.new)
        (flat_map (told_point leaf_of) (a.entry ∷ b.entry ∷ c.entry ∷ d.entry ∷ [])) result }
    ensures ends { EndsWriting (W.state out.new) result }
{
    let [p, q, r, s] = tree.leaves([a.point, b.point, c.point, d.point]);
    let (a, b, c, d) = (a.pair, b.pair, c.pair, d.pair);
    put_point(a, leaf_from(p), out)?;
    put_point(b, leaf_from(q), out)?;
    put_point(c, leaf_from(r), out)?;
    put_point(d, leaf_from(s), out)
}

// The answer to a point.
#[inline(always)]
fn put_point<W: Sink>(pair: Pair<'_>, leaf: Leaf, out: &mut W) -> Result<(), IoFault>
    requires { (W.state out.old).failed ≡ false }
    ensures { Writes (W.state out.old) (W.state out.new) (point_text pair.entry.x pair.entry.y leaf) result }
{
    let mut line = TextLine::new();
    prepend_leaf(&mut line, leaf);
    pair.prepend(&mut line);
    emit(out, line.as_bytes())
}

// The leaf of a point.
fn leaf_at<A: Allocator>(tree: &SectorTree<'_, '_, A>, point: Point) -> Leaf
    ensures { (leaf_of : geo.Point → found.Leaf) → AreLeaves tree.now leaf_of → result ≡ leaf_of point }
{
    leaf_from(tree.leaf(point))
}

// An ssector and its sector.
fn leaf_from(found: (u16, u16)) -> Leaf
    ensures ssector { result.ssector ≡ found.0 }
    ensures sector { result.sector ≡ found.1 }
{
    let (ssector, sector) = found;
    Leaf { ssector, sector }
}

// ` sector <s> ssector <t>`
#[tactic(auto, unfolding(crate::specs::Engines::Points::leaf_text))]
fn prepend_leaf(line: &mut TextLine, leaf: Leaf)
    requires { line.old ≡ [] }
    ensures text { line.new ≡ leaf_text leaf }
    ensures length { length line.new ≤ 58 }
{
    line.prepend_bytes(b"\n");
    line.prepend_natural(u64::from(leaf.ssector));
    line.prepend_bytes(b" ssector ");
    line.prepend_natural(u64::from(leaf.sector));
    line.prepend_bytes(b" sector ");
}

/// Writes to each line `x y` of the input the sector and the ssector of that point, in map units from -16384 to 16383.
///
/// In the order in which they are tested, `Set`, `Level` and `Audit` come before anything is read or written, as does
/// `Memory`; then `Read`, `Write` and `TooLong`.
pub fn points<A: Allocator + Copy, F: AsBytes, S: Source, W: Sink>(
    alloc: A,
    files: &[F],
    name: &[u8],
    reading: Reading,
    input: &mut S,
    limit: u64,
    out: &mut W,
) -> Result<(), RunFault>
    requires few { length files.now ≤ MAX_FILES }
    requires limit { limit ≤ MAX_READ }
    requires input { (S.state input.old).failed ≡ false }
    requires out { (W.state out.old).failed ≡ false }
    ensures { RunsPoints S.state W.state (map F.bytes files.now) name.now reading limit input.old input.new out.old out.new result }
{
    let level = open_level(alloc, files, name, reading)?;
    let tree = sector_tree(alloc, &level)?;
    ended(answer_lines(&mut PointCommand { tree }, input, limit, out))
}
