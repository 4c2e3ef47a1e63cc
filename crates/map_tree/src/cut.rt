//! One step of a census: what becomes of the piece in hand.

ghost use Rattle.std.specs.Prelude.{◌≡◌, ◌<ℤ◌};
ghost use Rattle.map_geo.specs.Point.{IsInRange};
ghost use Rattle.map_geo.specs.Partition.{partition_of};
ghost use Rattle.map_geo.specs.Rect.{IsRect};
ghost use Rattle.map_tree.specs.Cuts.{IsCut, IsMiddleRow};
ghost use Rattle.map_tree.specs.Steps.{IsWord, IsRowsCut, IsRowCut, IsStepAt, IsStep};

use crate::pieces::{Halves, Piece, Step, word_at};
use crate::places::NF_SUBSECTOR;
use crate::row::{last_of_side, middle};
use le_rec::{Node, Table};
use map_geo::{Partition, Point, Rect, side, whole_side};

/// What happens to a piece. At an ssector its points are counted. At a node it goes whole to the
/// child of its side, or is cut if it has both sides.
#[inline]
pub fn step(nodes: &Table<'_, Node>, piece: Piece) -> Step
    requires { IsWord nodes.now.records piece.word }
    ensures { IsStep nodes.now.records piece result }
{
    if piece.word >= NF_SUBSECTOR {
        return Step::AtSsector(piece.word - NF_SUBSECTOR, piece.rect.point_count());
    }
    step_at(&nodes.at(usize::from(piece.word)), piece)
}

// What happens to a piece at a node.
#[inline]
fn step_at(node: &Node, piece: Piece) -> Step
    requires x_in { IsInRange node.now.x }
    requires y_in { IsInRange node.now.y }
    ensures { IsStepAt node.now piece result }
{
    match whole_side(piece.rect, Partition::at(node)) {
        Some(s) => Step::Down(Piece {
            rect: piece.rect,
            word: word_at(node, s),
        }),
        None => {
            if piece.rect.y0() < piece.rect.y1() {
                Step::Apart(cut_rows(piece))
            } else {
                Step::Apart(cut_row(node, piece))
            }
        }
    }
}

/// Cuts a piece of more than one row in two: its lower half, rounded down, and the other rows.
#[inline]
pub fn cut_rows(piece: Piece) -> Halves
    requires { piece.rect.y0 <ℤ piece.rect.y1 }
    ensures { IsRowsCut piece result }
{
    let y = middle_row(piece.rect);
    Halves {
        first: Piece {
            rect: piece.rect.rows_to(y),
            word: piece.word,
        },
        second: Piece {
            rect: piece.rect.rows_from(y + 1),
            word: piece.word,
        },
        tests: 1,
    }
}

// The last row of a rectangle's lower half.
#[inline]
fn middle_row(rect: Rect) -> i32
    requires { rect.y0 <ℤ rect.y1 }
    ensures middle { IsMiddleRow rect result }
    ensures in_range { IsInRange result }
    ensures valid { IsRect rect }
{
    middle(rect.y0(), rect.y1() - 1)
}

// A row in two where its side changes: each part goes to the child of its side.
#[inline]
fn cut_row(node: &Node, piece: Piece) -> Halves
    requires x_in { IsInRange node.now.x }
    requires y_in { IsInRange node.now.y }
    requires flat { piece.rect.y0 ≡ piece.rect.y1 }
    requires cut { IsCut piece.rect (partition_of node.now) }
    ensures { IsRowCut node.now piece result }
{
    let rect = piece.rect;
    let partition = Partition::at(node);
    let left = rect.x0();
    let right = rect.x1();
    let y = rect.y0();
    let s = side(Point::at(left, y), partition);
    let last = last_of_side(partition, y, s, left, right);
    Halves {
        first: Piece {
            rect: rect.columns_to(last.column),
            word: word_at(node, s),
        },
        second: Piece {
            rect: rect.columns_from(last.column + 1),
            word: word_at(node, s.other()),
        },
        tests: 2 + last.halvings,
    }
}
