//! A row of cells whose points are all in range.

ghost use Rattle.std.specs.Prelude.{◌≡◌, ◌<◌, ◌≤◌, IfSome};
ghost use Rattle.map_cells.specs.Grid.{columns_of, rows_of};
ghost use Rattle.map_cells.specs.Row.{point_of};

use crate::grid::Grid;
use map_geo::Point;
use std::marker::Model;

/// A row of a grid's cells whose points all have coordinates in -16384..16383.
#[derive(Clone, Copy, Debug, PartialEq, Eq)]
pub struct Row {
    grid: Grid,
    j: u16,
}

impl Model for Row {
    ghost use Rattle.map_cells.specs.Row as row;
    ghost use Rattle.map_cells.specs.Row.{row_at, IsRowInRange};

    ghost Value = { row.Row };

    ghost view = { λ r. row_at r.grid r.j };

    ghost invariant = { λ r. IsRowInRange (row_at r.grid r.j) };

    ghost inverse = { λ r. record { grid = r.grid; j = r.j } };
}

impl Row {
    ghost use Rattle.map_cells.specs.Row.{IsRowInRange};

    /// Row j of a grid, where its first and its last point are in range.
    pub fn of(grid: Grid, j: u16) -> Option<Row>
        requires { j < rows_of grid }
        ensures grid { IfSome result (λ row. row.grid ≡ grid) }
        ensures number { IfSome result (λ row. row.j ≡ j) }
    {
        let y = grid.y(j);
        let _first = Point::new(grid.x(0), y)?;
        let _last = Point::new(grid.x(grid.columns() - 1), y)?;
        Some(Row { grid, j })
    }

    /// How many cells it has, from 1 to 1024.
    #[inline]
    pub fn columns(self) -> u16
        ensures value { result ≡ columns_of self.grid }
        ensures few { result ≤ 1024 }
        ensures valid { IsRowInRange self }
    {
        self.grid.columns()
    }

    /// The point of its cell in column i.
    #[inline]
    pub fn point(self, i: u16) -> Point
        requires { i < columns_of self.grid }
        ensures { result ≡ point_of self i }
    {
        Point::at(self.grid.x(i), self.grid.y(self.j))
    }
}
