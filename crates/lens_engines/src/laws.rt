//! Laws of the definitions alone, each the contract of a function that does nothing: a caller gets the law from a call.

ghost use Rattle.lens_engines.specs.Laws as law;

/// A survey is right about soundness: there are no faults exactly where the level is sound.
pub fn faultless_is_sound()
    ensures { law.FaultlessIsSound }
{}

/// A level's counts are those of its report: of each code, of the faults and of the notes.
pub fn counts_are_of_the_report()
    ensures { law.CountsAreOfTheReport }
{}

/// If as many findings of a code are shown as there are, a check writes the line of each finding of the level's report, in the
/// report's order.
pub fn lines_are_of_the_report()
    ensures { law.LinesAreOfTheReport }
{}

/// The kit's reader of JSON reads a survey back. Each line is one object of the file, the level and the report on it, if the
/// numbers have at most 64 bits.
pub fn objects_are_read()
    ensures { law.ObjectsAreRead }
{}

/// A check of levels that are all of Doom's format counts no fault exactly where each of them is sound under the reading
/// asked.
pub fn checked_is_sound()
    ensures { law.CheckedIsSound }
{}
