//! Laws of levels with later nodes, each the contract of a function that does nothing: a caller gets the law from a call.

ghost use Rattle.later_levels.specs.Laws.{OneLeaf, SameSector, SoundIsFaultless};

/// In a sound level each point has exactly one leaf.
pub fn one_leaf()
    ensures { OneLeaf }
{}

/// A level is sound exactly where none of the faults F3 to F17 holds.
pub fn sound_is_faultless()
    ensures { SoundIsFaultless }
{}

/// Where a level's own nodes, ssectors and segs are written wider, each ssector has the same sector.
pub fn same_sector()
    ensures { SameSector }
{}
