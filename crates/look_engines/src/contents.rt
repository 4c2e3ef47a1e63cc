//! What the contents of lines name: two numbers, a point, two sectors.

ghost use Rattle.std.specs.Prelude.{◌≡◌, ◌<◌, ◌≤◌, ◌^◌, ℤ, List, [], ◌∷◌, length, map, pos, IfErr, IfNone, IfOk, IfSome, IsTrue};
ghost use Rattle.line_io.specs.NumberAnswers.{OfTwo, RefusesContent};
ghost use Rattle.line_io.specs.Numbers.{HasForm, nearest, printed};
ghost use Rattle.line_io.specs.declared.lines.TheConstants.{MAX_CONTENT};
ghost use Rattle.map_geo.specs.Point.{point_at};
ghost use Rattle.map_level.specs.Links.{Names};
ghost use Rattle.look_engines.specs.Contents.{AreCoordinates, AreSectors, pair_text};

use line_io::{LineRefusal, TextLine, read_numbers};
use map_geo::Point;

/// Two numbers of a line, with its content. An answer can repeat the content if it is known to be their
/// printed text.
#[derive(Clone, Copy)]
pub struct Pair<'a> {
    pub x: i32,
    pub y: i32,
    content: &'a [u8],
    is_printed: bool,
    ghost short: { length content.now ≤ MAX_CONTENT },
    ghost spelled: { IsTrue is_printed → content.now ≡ printed (x ∷ y ∷ []) },
}

impl Pair<'_> {
    /// Puts `<x> <y>` before the line.
    #[inline(always)]
    pub fn prepend(self, line: &mut TextLine)
        requires { length line.old ≤ 80 }
        ensures { line.new ≡ pair_text self.entry.x self.entry.y line.old }
    {
        if self.is_printed {
            line.prepend_bytes(self.content);
        } else {
            line.prepend_integer(i64::from(self.y));
            line.prepend_bytes(b" ");
            line.prepend_integer(i64::from(self.x));
        }
    }
}

// The two numbers of a content.
#[inline(always)]
fn read_pair(content: &[u8]) -> Option<Pair<'_>>
    requires { length content.now ≤ MAX_CONTENT }
    ensures some { IfSome result (λ pair.
        (exact : List ℤ) × HasForm 2 content.now exact × (pair.x ∷ pair.y ∷ [] ≡ map nearest exact)) }
    ensures none { IfNone result ((exact : List ℤ) → HasForm 2 content.now exact → ⊥) }
{
    let found = read_numbers::<2>(content)?;
    let [x, y] = found.values;
    Some(Pair {
        x,
        y,
        content,
        is_printed: found.is_printed,
    })
}

/// A point that a line names, with its two numbers.
#[derive(Clone, Copy)]
pub struct NamedPoint<'a> {
    pub point: Point,
    pub pair: Pair<'a>,
}

/// The point that a content names.
#[inline(always)]
pub fn read_point(content: &[u8]) -> Result<NamedPoint<'_>, LineRefusal>
    requires { length content.now ≤ MAX_CONTENT }
    ensures point { IfOk result (λ named. named.point ≡ point_at named.pair.x named.pair.y) }
    ensures read { IfOk result (λ named. HasForm 2 content.now (named.pair.x ∷ named.pair.y ∷ [])) }
    ensures allowed { IfOk result (λ named. AreCoordinates named.pair.x named.pair.y) }
    ensures refused { IfErr result (RefusesContent 2 (OfTwo AreCoordinates) content.now) }
{
    let Some(pair) = read_pair(content) else {
        return Err(LineRefusal::Form);
    };
    match Point::new(pair.x, pair.y) {
        Some(point) => Ok(NamedPoint { point, pair }),
        None => Err(LineRefusal::Range),
    }
}

/// The two of so many sectors that a content names.
#[inline(always)]
pub fn read_sectors(content: &[u8], count: u32) -> Result<(u32, u32, Pair<'_>), LineRefusal>
    requires short { length content.now ≤ MAX_CONTENT }
    requires few { count < 2 ^ 31 }
    ensures sectors { IfOk result (λ found. (found.2.x ≡ pos found.0) × (found.2.y ≡ pos found.1)) }
    ensures read { IfOk result (λ found. HasForm 2 content.now (found.2.x ∷ found.2.y ∷ [])) }
    ensures allowed { IfOk result (λ found. (found.0 < count) × (found.1 < count)) }
    ensures refused { IfErr result (RefusesContent 2 (OfTwo (AreSectors count)) content.now) }
{
    let Some(pair) = read_pair(content) else {
        return Err(LineRefusal::Form);
    };
    match (index_below(pair.x, count), index_below(pair.y, count)) {
        (Some(a), Some(b)) => Ok((a, b, pair)),
        _ => Err(LineRefusal::Range),
    }
}

// The number as an index, where it is below the count.
#[inline]
fn index_below(number: i32, count: u32) -> Option<u32>
    ensures some { IfSome result (λ index. (number ≡ pos index) × (index < count)) }
    ensures none { IfNone result (¬ Names count number) }
{
    if number < 0 {
        return None;
    }
    let index = number as u32;
    if index >= count {
        return None;
    }
    Some(index)
}
