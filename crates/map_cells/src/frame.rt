//! The part of a map that is drawn.

ghost use Rattle.std.specs.Prelude.{◌≡◌, ◌↔◌, IsSome, IfSome, Some, None};
ghost use Rattle.le_rec.specs.declared.records.Vertex.{Vertex};
ghost use Rattle.map_cells.specs.Ends.{IsEnd};
ghost use Rattle.map_cells.specs.Frame.{Encloses, IsFrame, frame_with, widened};

use crate::ends::{Ends, linedef_ends};
use le_rec::Vertex;
use map_level::Level;
use std::marker::Model;

/// The columns from x0 to x1 and the rows from y0 to y1 of a map, in map units.
#[derive(Clone, Copy, Debug, PartialEq, Eq)]
pub struct Frame {
    x0: i16,
    y0: i16,
    x1: i16,
    y1: i16,
}

impl Model for Frame {
    ghost use Rattle.map_cells.specs.Frame as frame;
    ghost use Rattle.map_cells.specs.Frame.{frame_at, IsFrame};

    ghost Value = { frame.Frame };

    ghost view = { λ f. frame_at f.x0 f.y0 f.x1 f.y1 };

    ghost invariant = { λ f. IsFrame (frame_at f.x0 f.y0 f.x1 f.y1) };

    ghost inverse = { λ f. record { x0 = f.x0; y0 = f.y0; x1 = f.x1; y1 = f.y1 } };
}

impl Frame {
    ghost use Rattle.map_cells.specs.Frame as frame;
    ghost use Rattle.map_cells.specs.Frame.{frame_at};

    /// The frame with these bounds, or None if a lower one is past its upper one.
    pub fn new(x0: i16, y0: i16, x1: i16, y1: i16) -> Option<Frame>
        ensures some { IsSome result ↔ IsFrame (frame_at x0 y0 x1 y1) }
        ensures value { IfSome result (λ found. found ≡ frame_at x0 y0 x1 y1) }
    {
        if x0 <= x1 && y0 <= y1 {
            Some(Frame { x0, y0, x1, y1 })
        } else {
            None
        }
    }

    /// The frame of a level: the least and greatest x and y of the ends of its linedefs. Only linedefs with both vertexes
    /// count; None if there is no such linedef.
    pub fn of(level: &Level<'_>) -> Option<Frame>
        ensures frame { (found : frame.Frame) → (result ≡ Some found) ↔ Encloses (IsEnd level.now) found }
        ensures none { (result ≡ None) ↔ ((v : Vertex) → ¬ IsEnd level.now v) }
    {
        let mut frame = None;
        for i in 0..level.linedefs().len() {
            frame = frame_with(frame, linedef_ends(level, i));
        }
        frame
    }

    /// The least column.
    #[inline]
    pub fn x0(self) -> i16
        ensures value { result ≡ self.x0 }
        ensures valid { IsFrame self }
    {
        self.x0
    }

    /// The least row.
    #[inline]
    pub fn y0(self) -> i16
        ensures value { result ≡ self.y0 }
        ensures valid { IsFrame self }
    {
        self.y0
    }

    /// The greatest column.
    #[inline]
    pub fn x1(self) -> i16
        ensures value { result ≡ self.x1 }
        ensures valid { IsFrame self }
    {
        self.x1
    }

    /// The greatest row.
    #[inline]
    pub fn y1(self) -> i16
        ensures value { result ≡ self.y1 }
        ensures valid { IsFrame self }
    {
        self.y1
    }
}

// A frame that also holds the ends of a linedef, if it has both.
#[inline]
fn frame_with(frame: Option<Frame>, ends: Option<Ends>) -> Option<Frame>
    ensures { result ≡ frame_with frame ends }
{
    match ends {
        Some(ends) => {
            let start = widened(frame, &ends.from);
            Some(widened(Some(start), &ends.to))
        }
        None => frame,
    }
}

// A frame that also holds a vertex.
#[inline]
fn widened(frame: Option<Frame>, vertex: &Vertex) -> Frame
    ensures { result ≡ widened frame vertex.now }
{
    match frame {
        None => Frame {
            x0: vertex.x,
            y0: vertex.y,
            x1: vertex.x,
            y1: vertex.y,
        },
        Some(frame) => Frame {
            x0: frame.x0.min(vertex.x),
            y0: frame.y0.min(vertex.y),
            x1: frame.x1.max(vertex.x),
            y1: frame.y1.max(vertex.y),
        },
    }
}
