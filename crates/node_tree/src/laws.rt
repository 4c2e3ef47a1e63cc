//! Laws of sound trees, each the contract of a function that does nothing: a caller gets the law from a call.

ghost use Rattle.node_tree.specs.Laws.{AncestorsByDepth, DepthAtMostNodes, OneLeaf, SameFindings, SameLeaf, SoundIsFaultless, SoundWider};

/// In a sound tree each point has exactly one leaf.
pub fn one_leaf()
    ensures { OneLeaf }
{}

/// In a sound tree an ssector has as many ancestors as its depth, and at most as many as there are nodes.
pub fn ancestors_by_depth()
    ensures ancestors { AncestorsByDepth }
    ensures few { DepthAtMostNodes }
{}

/// A tree is sound exactly where there is an ssector and none of the faults F11 to F16 holds.
pub fn sound_is_faultless()
    ensures { SoundIsFaultless }
{}

/// Where a level's own nodes are written wider, as later ones, each point has the same leaf, the findings on the nodes are the
/// same, and the nodes of a sound level are sound.
pub fn wider_nodes()
    ensures leaf { SameLeaf }
    ensures findings { SameFindings }
    ensures sound { SoundWider }
{}
