//! Laws over the definitions alone, each the contract of a function that does nothing: a caller
//! gets the law from a call.

ghost use Rattle.map_tables.specs.Laws.{OneBlockList};

/// A block has one list at most.
pub fn one_block_list()
    ensures { OneBlockList }
{}
