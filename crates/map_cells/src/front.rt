//! The columns of a row that are in front of an ssector's segs.

ghost use Rattle.std.specs.Prelude.{◌≡◌, ◌+◌, ◌<◌, ◌≤◌, length, pos, int_lt};
ghost use Rattle.map_cells.specs.Ends.{ListsEnds, line_ends};
ghost use Rattle.map_cells.specs.Grid.{columns_of};
ghost use Rattle.map_cells.specs.Shown.{cross};
ghost use Rattle.map_cells.specs.Front.{IsCutBy, IsFrontOf, IsFrontOfRange, IsFrontOfSegs};

use crate::change::{ColumnTest, change};
use crate::ends::{Ends, line_ends};
use crate::row::Row;
use crate::shown::{SegRange, cross, is_before_segs, segs_of};
use map_geo::Point;
use map_level::Level;

/// Columns, from the first up to an end that isn't one of them.
#[derive(Clone, Copy)]
pub struct Span {
    pub first: u16,
    pub end: u16,
}

/// The columns of a span of a row that are behind none of an ssector's segs.
pub fn front_of_segs(
    level: &Level<'_>,
    listed: &[Option<Ends>],
    t: u16,
    row: Row,
    span: Span,
) -> Span
    requires listed { ListsEnds level.now listed.now }
    requires ordered { span.first ≤ span.end }
    requires within { span.end ≤ columns_of row.grid }
    ensures { IsFrontOfSegs level.now t row span result }
{
    let segs = segs_of(level, t);
    if segs.end <= listed.len() {
        front_of_listed(level, listed, segs, row, span)
    } else if span.end - span.first == 1 {
        lone_front(level, t, row, span)
    } else {
        front_of_others(level, segs, row, span)
    }
}

// The columns that are behind none of some segs, by the list of their ends.
#[inline]
fn front_of_listed(
    level: &Level<'_>,
    listed: &[Option<Ends>],
    segs: SegRange,
    row: Row,
    span: Span,
) -> Span
    requires listed { ListsEnds level.now listed.now }
    requires there { segs.end ≤ length listed.now }
    requires ordered { span.first ≤ span.end }
    requires within { span.end ≤ columns_of row.grid }
    ensures { IsFrontOfRange level.now segs row span result }
{
    let mut front = span;
    for i in segs.first..segs.end {
        if front.first == front.end {
            return front;
        }
        front = front_of_seg(level, i, listed[i], row, front);
    }
    front
}

// The same for a single column, with the test for a single point.
#[inline]
fn lone_front(level: &Level<'_>, t: u16, row: Row, span: Span) -> Span
    requires one { span.end ≡ span.first + 1 }
    requires within { span.end ≤ columns_of row.grid }
    ensures { IsFrontOfSegs level.now t row span result }
{
    let Span { first, end } = span;
    if is_before_segs(level, t, row.point(first)) {
        span
    } else {
        Span { first: end, end }
    }
}

// The columns that are behind none of some segs, which aren't all listed.
fn front_of_others(level: &Level<'_>, segs: SegRange, row: Row, span: Span) -> Span
    requires ordered { span.first ≤ span.end }
    requires within { span.end ≤ columns_of row.grid }
    ensures { IsFrontOfRange level.now segs row span result }
{
    let mut left = span;
    for i in segs.first..segs.end {
        if left.first == left.end {
            return left;
        }
        left = front_of_seg(level, i, line_ends(level, i), row, left);
    }
    left
}

// The columns that aren't behind the seg of a number, with these ends.
#[inline]
fn front_of_seg(level: &Level<'_>, i: usize, ends: Option<Ends>, row: Row, span: Span) -> Span
    requires ends { line_ends level.now i ≡ ends }
    requires some { span.first < span.end }
    requires within { span.end ≤ columns_of row.grid }
    ensures { IsFrontOf level.now i row span result }
{
    // Only the clauses speak of the level and the number.
    let (_level, _i) = (level, i);
    match ends {
        Some(ends) => cut_by(&ends, row, span),
        None => span,
    }
}

// Whether a point of a row is behind a seg, or isn't.
#[derive(Drop)]
struct Behind<'e> {
    ends: &'e Ends,
    row: Row,
    behind: bool,
}

impl ColumnTest for Behind<'_> {
    ghost use Rattle.std.specs.Prelude.{◌≡◌, int_lt, pos};
    ghost use Rattle.map_cells.specs.Grid.{columns_of};
    ghost use Rattle.map_cells.specs.Row.{point_of};
    ghost use Rattle.map_cells.specs.Shown.{cross};

    ghost columns = { λ test. columns_of test.row.grid };

    ghost holds = { λ test i. int_lt (cross test.ends.now (point_of test.row i)) (pos 0) ≡ test.behind };

    #[inline]
    fn holds(&self, i: u16) -> bool {
        is_behind(self.ends, self.row.point(i)) == self.behind
    }
}

// Whether a point is behind a seg.
#[inline]
fn is_behind(ends: &Ends, point: Point) -> bool
    ensures { result ≡ int_lt (cross ends.now point) (pos 0) }
{
    cross(ends, point) < 0
}

// The columns that aren't behind a seg with two ends.
#[inline]
fn cut_by(ends: &Ends, row: Row, span: Span) -> Span
    requires some { span.first < span.end }
    requires within { span.end ≤ columns_of row.grid }
    ensures { IsCutBy ends.now row span result }
{
    let Span { first, end } = span;
    let last = end - 1;
    if first == last {
        return cut_column(ends, row, span);
    }
    let begins_behind = is_behind(ends, row.point(first));
    let ends_behind = is_behind(ends, row.point(last));
    match (begins_behind, ends_behind) {
        (false, false) => span,
        (true, true) => Span { first: end, end },
        (false, true) => {
            let behind = false;
            let end = change(&Behind { ends, row, behind }, first, last);
            Span { first, end }
        }
        (true, false) => {
            let behind = true;
            let first = change(&Behind { ends, row, behind }, first, last);
            Span { first, end }
        }
    }
}

// The same for a single column, which needs only one test.
#[inline]
fn cut_column(ends: &Ends, row: Row, span: Span) -> Span
    requires one { span.end ≡ span.first + 1 }
    requires within { span.end ≤ columns_of row.grid }
    ensures { IsCutBy ends.now row span result }
{
    let Span { first, end } = span;
    if is_behind(ends, row.point(first)) {
        Span { first: end, end }
    } else {
        span
    }
}
