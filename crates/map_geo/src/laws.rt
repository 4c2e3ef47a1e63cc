//! Laws over the definitions alone, each the contract of a function that does nothing: a caller
//! gets the law from a call.

ghost use Rattle.map_geo.specs.Laws.{SidesAlongRows, SidesAlongColumns, SidesByCorners};

/// A row or a column crosses a partition at most once. So if two of its points have one side, each
/// point between them has it, too, also one on the partition's line.
pub fn sides_along_a_line()
    ensures rows { SidesAlongRows }
    ensures columns { SidesAlongColumns }
    ensures corners { SidesByCorners }
{}
