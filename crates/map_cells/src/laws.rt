//! Laws of what a picture shows, each the contract of a function that does nothing.

ghost use Rattle.map_cells.specs.Laws.{OneBlockACell, OneSectorShown};

/// In a sound level at most one sector is shown at a point.
pub fn one_sector_shown()
    ensures { OneSectorShown }
{}

/// Each cell that shows a sector is in exactly one block among those of all sectors, and that one shows its sector.
pub fn one_block_a_cell()
    ensures { OneBlockACell }
{}
