//! Laws of levels and of findings, each the contract of a function that does
//! nothing: a caller gets the law from a call.

ghost use Rattle.map_level.specs.Laws.{OneLevel, RefusedHaveNoLevel, OneLevelFault, OneList};

use crate::search::Searched;

/// Files and a name have at most one level under a reading.
pub fn one_level()
    ensures { OneLevel }
{}

/// Files that are refused under a name have no level of it.
pub fn refused_have_no_level()
    ensures { RefusedHaveNoLevel }
{}

/// At most one fault refuses files under a name.
pub fn one_level_fault()
    ensures { OneLevelFault }
{}

/// There is at most one list of findings, whatever is searched and whichever codes are looked for.
pub fn one_list<T: Searched>()
    ensures { (searched : T) → OneList (T.holds searched) }
{}
