//! Laws of the definitions alone, each the contract of a function that does nothing.
ghost use Rattle.look_engines.specs.Laws as law;

/// Over a sound level `points` has an answer for every content.
pub fn points_are_answered()
    ensures { law.PointsAreAnswered }
{}

/// Over a sound level `census` has an answer for every content.
pub fn census_is_answered()
    ensures { law.CensusIsAnswered }
{}

/// Over each level `sight` has an answer for every content.
pub fn sight_is_answered()
    ensures { law.SightIsAnswered }
{}

/// The line that answers a point in range has the sector of its leaf, and the point has no other leaf.
pub fn lines_name_the_leaf()
    ensures { law.LinesNameTheLeaf }
{}

/// The coordinates of each point in range, as they are printed, are a line. Over a sound level, its answer is the line with
/// them, the sector of the point's leaf and that ssector.
pub fn each_point_has_a_line()
    ensures line { law.PointsAreLines }
    ensures answered { law.EachPointIsAnswered }
{}

/// Over every level with a BLOCKMAP, `blocks` has an answer for every content.
pub fn blocks_are_answered()
    ensures { law.BlocksAreAnswered }
{}

/// The findings of `audit_text` on a name have no fault exactly if there is a level of the name and no F code holds of it.
pub fn faultless_is_no_fault()
    ensures { law.FaultlessIsNoFault }
{}

/// What `extract` writes is a WAD. The label opens there with the same ten lumps, unless one of them has its name.
pub fn extracted_opens()
    ensures wad { law.ExtractedIsAWad }
    ensures opens { law.ExtractedOpens }
{}
