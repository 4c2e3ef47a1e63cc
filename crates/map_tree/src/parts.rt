//! One step of areas: what happens to the piece in hand. Rows that a partition cuts at the same column stay together.

ghost use Rattle.std.specs.Prelude.{◌≡◌, ◌<ℤ◌, true, false};
ghost use Rattle.map_geo.specs.Point.{IsInRange};
ghost use Rattle.map_geo.specs.Partition.{partition_of};
ghost use Rattle.map_tree.specs.Cuts.{IsCut};
ghost use Rattle.map_tree.specs.Parts.{ChangeTogether, AreColumnParts, AreRowParts, IsTurn, IsTurnAt};
ghost use Rattle.map_tree.specs.Steps.{IsWord};

use crate::column::last_column;
use crate::cut::cut_rows;
use crate::pieces::{Piece, word_at};
use crate::places::NF_SUBSECTOR;
use le_rec::{Node, Table};
use map_geo::{Partition, Point, Rect, side, whole_side};

/// A piece in two. The second is taken first.
#[derive(Clone, Copy)]
pub struct Split {
    pub first: Piece,
    pub second: Piece,
}

/// What happens to a piece.
#[derive(Clone, Copy)]
pub enum Turn {
    /// It has come to an ssector, with so many points.
    AtSsector(u16, u32),
    /// It goes whole to a child.
    Down(Piece),
    /// It is cut.
    Apart(Split),
}

/// What happens to a piece. At an ssector its points are counted. At a node it goes whole to the child of its side, or
/// is cut if it has both sides.
#[inline]
pub fn take_turn(nodes: &Table<'_, Node>, piece: Piece) -> Turn
    requires { IsWord nodes.now.records piece.word }
    ensures { IsTurn nodes.now.records piece result }
{
    if piece.word >= NF_SUBSECTOR {
        return Turn::AtSsector(piece.word - NF_SUBSECTOR, piece.rect.point_count());
    }
    turn_at(&nodes.at(usize::from(piece.word)), piece)
}

// What happens to a piece at a node.
#[inline]
fn turn_at(node: &Node, piece: Piece) -> Turn
    requires x_in { IsInRange node.now.x }
    requires y_in { IsInRange node.now.y }
    ensures { IsTurnAt node.now piece result }
{
    match whole_side(piece.rect, Partition::at(node)) {
        Some(s) => Turn::Down(Piece {
            rect: piece.rect,
            word: word_at(node, s),
        }),
        None => {
            if change_together(node, piece.rect) {
                Turn::Apart(column_parts(node, piece))
            } else {
                Turn::Apart(row_parts(piece))
            }
        }
    }
}

// Each row has its sides in the same columns: the partition is upright, or there is one row.
#[inline]
fn change_together(node: &Node, rect: Rect) -> bool
    ensures together { result ≡ true → ChangeTogether node.now rect }
    ensures apart { result ≡ false → ¬ ChangeTogether node.now rect }
    ensures more { result ≡ false → rect.y0 <ℤ rect.y1 }
{
    (node.dx == 0) | (rect.y0() == rect.y1())
}

// Cuts a piece of more than one row in two: its lower half, rounded down, and the other rows.
#[inline]
fn row_parts(piece: Piece) -> Split
    requires { piece.rect.y0 <ℤ piece.rect.y1 }
    ensures { AreRowParts piece result }
{
    let halves = cut_rows(piece);
    Split {
        first: halves.first,
        second: halves.second,
    }
}

// A piece in two at the column where the side of each row changes: each part goes to the child of its side.
#[inline]
fn column_parts(node: &Node, piece: Piece) -> Split
    requires x_in { IsInRange node.now.x }
    requires y_in { IsInRange node.now.y }
    requires together { ChangeTogether node.now piece.rect }
    requires cut { IsCut piece.rect (partition_of node.now) }
    ensures { AreColumnParts node.now piece result }
{
    let rect = piece.rect;
    let left = rect.x0();
    let right = rect.x1();
    let y = rect.y0();
    let s = side(Point::at(left, y), Partition::at(node));
    let column = last_column(node, y, s, left, right);
    Split {
        first: Piece {
            rect: rect.columns_to(column),
            word: word_at(node, s),
        },
        second: Piece {
            rect: rect.columns_from(column + 1),
            word: word_at(node, s.other()),
        },
    }
}
