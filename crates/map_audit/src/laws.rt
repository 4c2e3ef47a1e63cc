//! Laws over the definitions alone, each the contract of a function that does nothing: a caller
//! gets the law from a call.

ghost use Rattle.map_audit.specs.Laws.{SoundIsNoFault, OneReport, WideKeepsSound};
ghost use Rattle.map_audit.specs.Laws.{FaultsStandFirst, FirstStandsBefore};

/// A level is sound exactly where none of the faults F3 to F18 holds of it.
pub fn sound_is_no_fault()
    ensures { SoundIsNoFault }
{}

/// A level has at most one report.
pub fn one_report()
    ensures { OneReport }
{}

/// A report's first finding comes before all others, and faults come first.
pub fn faults_stand_first()
    ensures first { FirstStandsBefore }
    ensures none { FaultsStandFirst }
{}

/// A level that is sound under the signed reading is sound under the wide one. The leaf of each
/// point and the sector of each ssector are the same.
pub fn wide_keeps_sound()
    ensures { WideKeepsSound }
{}
