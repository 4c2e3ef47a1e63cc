//! The cells of a picture.

ghost use Rattle.std.specs.Prelude.{◌≡◌, ◌+◌, ◌*◌, ◌/◌, ◌<◌, ◌≤◌, ◌≤ℤ◌, ◌-ℤ◌, pos, unsigned_abs};
ghost use Rattle.map_cells.specs.Grid.{IsSize, cell_x, cell_y, columns_of, longer_side, rows_of};

use crate::cell_count::CellCount;
use crate::frame::Frame;
use std::marker::Model;

/// Square cells over a frame: of a size in map units, from the frame's least column and row on.
#[derive(Clone, Copy, Debug, PartialEq, Eq)]
pub struct Grid {
    frame: Frame,
    size: u32,
}

impl Model for Grid {
    ghost use Rattle.map_cells.specs.Grid as grid;
    ghost use Rattle.map_cells.specs.Grid.{grid_at, IsGrid};

    ghost Value = { grid.Grid };

    ghost view = { λ g. grid_at g.frame g.size };

    ghost invariant = { λ g. IsGrid (grid_at g.frame g.size) };

    ghost inverse = { λ g. record { frame = g.frame; size = g.size } };
}

impl Grid {
    ghost use Rattle.map_cells.specs.Grid.{IsGrid};

    /// The cells of the least size at which the frame's longer side has at most so many of them.
    pub fn new(frame: Frame, cells: CellCount) -> Grid
        ensures frame { result.frame ≡ frame }
        ensures size { IsSize frame cells result.size }
    {
        Grid {
            frame,
            size: longer_side(frame) / cells.get() + 1,
        }
    }

    /// The frame.
    #[inline]
    pub fn frame(self) -> Frame
        ensures { result ≡ self.frame }
    {
        self.frame
    }

    /// How wide and high a cell is, in map units, from 1 to 65,536.
    #[inline]
    pub fn size(self) -> u32
        ensures value { result ≡ self.size }
        ensures valid { IsGrid self }
    {
        self.size
    }

    /// How many cells a row has, from 1 to 1024.
    pub fn columns(self) -> u16
        ensures value { result ≡ columns_of self }
        ensures valid { IsGrid self }
    {
        (width(self.frame) / self.size + 1) as u16
    }

    /// How many rows of cells there are, from 1 to 1024.
    pub fn rows(self) -> u16
        ensures value { result ≡ rows_of self }
        ensures valid { IsGrid self }
    {
        (height(self.frame) / self.size + 1) as u16
    }

    /// The column of the map in which the points of the cells of column i lie.
    #[inline]
    pub fn x(self, i: u16) -> i32
        requires { i < columns_of self }
        ensures { result ≡ cell_x self i }
    {
        i32::from(self.frame.x0()) + middle(self.size, i)
    }

    /// The row of the map in which the points of the cells of row j lie.
    #[inline]
    pub fn y(self, j: u16) -> i32
        requires { j < rows_of self }
        ensures { result ≡ cell_y self j }
    {
        i32::from(self.frame.y0()) + middle(self.size, j)
    }
}

// How far the middle of cell k is from the first cell's beginning.
#[inline]
fn middle(size: u32, k: u16) -> i32
    requires size_in { size ≤ 65536 }
    requires k_in { k < 1024 }
    ensures value { result ≡ pos (k * size + size / 2) }
    ensures few { result ≤ℤ pos 67108864 }
{
    (u32::from(k) * size + size / 2) as i32
}

// The longer side of a frame.
fn longer_side(frame: Frame) -> u32
    ensures value { result ≡ longer_side frame }
    ensures few { result ≤ 65535 }
{
    width(frame).max(height(frame))
}

fn width(frame: Frame) -> u32
    ensures value { result ≡ unsigned_abs (frame.x1 -ℤ frame.x0) }
    ensures few { result ≤ 65535 }
{
    distance(&frame.x0(), &frame.x1())
}

fn height(frame: Frame) -> u32
    ensures value { result ≡ unsigned_abs (frame.y1 -ℤ frame.y0) }
    ensures few { result ≤ 65535 }
{
    distance(&frame.y0(), &frame.y1())
}

fn distance(from: &i16, to: &i16) -> u32
    ensures value { result ≡ unsigned_abs (to.now -ℤ from.now) }
    ensures few { result ≤ 65535 }
{
    (i32::from(*to) - i32::from(*from)).unsigned_abs()
}
