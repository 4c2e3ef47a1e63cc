//! Laws of warnings, each the contract of a function that does nothing.

ghost use Rattle.map_warnings.specs.Laws.{ClosedIsBalanced, VoidIsAnEmptyCell, VoidShowsNoSector};

/// In a level without W1, as many of each sector's sides leave each vertex as reach it.
pub fn closed_is_balanced()
    ensures { ClosedIsBalanced }
{}

/// In a sound level, W3 warns of a thing exactly if its place is in range and no sector is shown there: if
/// `map_cells::Shown::at` returns None.
pub fn void_shows_no_sector()
    ensures { VoidShowsNoSector }
{}

/// In a sound level, W3 warns of a thing at the point of a picture's cell, in range, exactly if the cell shows nothing: if
/// `map_cells::Cells::get` returns None.
pub fn void_is_an_empty_cell()
    ensures { VoidIsAnEmptyCell }
{}
