//! Laws of the table, each the contract of a function that does nothing: a caller gets the law from a call.

ghost use Rattle.level_codes.specs.Laws.{ClassesAreOfTheCodes, CodesStandAtTheirRanks, ExplanationsFitScreen, NamesAreDistinct, NamesAreNumbered};

/// Each code stands in the table at its rank, and at no other.
pub fn codes_stand_at_their_ranks()
    ensures { CodesStandAtTheirRanks }
{}

/// Two codes that are printed alike are one.
pub fn names_are_distinct()
    ensures { NamesAreDistinct }
{}

/// A code's name is the letter of its class, and its number from 1 among the codes of this class.
pub fn names_are_numbered()
    ensures { NamesAreNumbered }
{}

/// The faults of the table are those of the findings; each other finding is a note.
pub fn classes_are_of_the_codes()
    ensures { ClassesAreOfTheCodes }
{}

/// Each code is told in at most eight lines of 80 columns: one of its name, and one or more of each part of its explanation.
pub fn explanations_fit_screen()
    ensures { ExplanationsFitScreen }
{}
