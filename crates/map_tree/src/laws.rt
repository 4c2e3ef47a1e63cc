//! Laws of sound levels, each the contract of a function that does nothing.

ghost use Rattle.map_tree.specs.Laws.{OneLeaf, AncestorsByDepth, DepthAtMostNodes, SoundIsFaultless};
ghost use Rattle.map_tree.specs.Laws.{OneWork, FewTests, FewPending, SectorsAreTold, CountsAddUp, OneCounting};
ghost use Rattle.map_tree.specs.Laws.{PairTells, NoPairTells, CensusHasAreas, AreasHaveCensus};

/// In a sound level each point has exactly one leaf.
pub fn one_leaf()
    ensures { OneLeaf }
{}

/// In a sound level an ssector has as many ancestors as its depth, and at most as many as there are nodes.
pub fn ancestors_by_depth()
    ensures ancestors { AncestorsByDepth }
    ensures few { DepthAtMostNodes }
{}

/// A level is sound exactly where none of the faults F3 to F18 holds.
pub fn sound_is_faultless()
    ensures { SoundIsFaultless }
{}

/// A piece of a census takes only one number of tests, and has only one depth. In a sound level a rectangle at the root takes at
/// most 18 tests for each row and node. Its depth is at most the number of nodes plus 16.
pub fn one_work()
    ensures one { OneWork }
    ensures few_tests { FewTests }
    ensures few_pending { FewPending }
{}

/// In a sound level a function gives each point its sector. Exactly one list of pairs has how many points of a rectangle lie in
/// each sector, and the counts add up to the rectangle's points.
pub fn plain_counts()
    ensures told { SectorsAreTold }
    ensures one { OneCounting }
    ensures total { CountsAddUp }
{}

/// A list of pairs gives each sector's count: the number beside it, or 0 if no pair has the sector.
pub fn pairs_tell_counts()
    ensures pair { PairTells }
    ensures none { NoPairTells }
{}

/// Over a sound level the pairs of a rectangle's areas are those of its census, and no others, and a rectangle with areas has a census.
pub fn areas_are_pairs()
    ensures pairs { CensusHasAreas }
    ensures census { AreasHaveCensus }
{}
