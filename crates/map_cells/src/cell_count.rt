//! How finely a picture is drawn.

ghost use Rattle.std.specs.Prelude.{◌≡◌, ◌↔◌, ℕ, Some};
ghost use Rattle.map_cells.specs.CellCount.{IsCellCount};

use std::marker::Model;

/// How many cells the longer side of a picture has at most: from 1 to 1024.
#[derive(Clone, Copy, Debug, PartialEq, Eq)]
pub struct CellCount {
    count: u32,
}

impl Model for CellCount {
    ghost use Rattle.std.specs.Prelude.{ℕ};
    ghost use Rattle.map_cells.specs.CellCount.{IsCellCount};

    ghost Value = { ℕ };

    ghost view = { λ c. c.count };

    ghost invariant = { λ c. IsCellCount c.count };

    ghost inverse = { λ n. record { count = n } };
}

impl CellCount {
    /// So many cells, or None if they are none or more than 1024.
    pub fn new(count: u32) -> Option<CellCount>
        ensures { (n : ℕ) → (result ≡ Some n) ↔ ((n ≡ count) × IsCellCount n) }
    {
        match count {
            1..=1024 => Some(CellCount { count }),
            _ => None,
        }
    }

    /// The number.
    pub fn get(self) -> u32
        ensures value { result ≡ self }
        ensures valid { IsCellCount self }
    {
        self.count
    }
}
