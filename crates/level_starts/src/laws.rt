//! Laws of starts and formats, each the contract of a function that does nothing: a caller gets
//! the law from a call.

ghost use Rattle.level_starts.specs.Laws.{AllStartsGiven, OneNextStart, OneFormat, DoomIsNotRefused};

/// From a number on there is at most one first start.
pub fn one_next_start()
    ensures { OneNextStart }
{}

/// `LevelStarts` gives all starts in their order, each once.
pub fn all_starts_given()
    ensures { AllStartsGiven }
{}

/// A label has at most one format.
pub fn one_format()
    ensures { OneFormat }
{}

/// `Level::at` refuses no label whose format is `Doom`.
pub fn doom_is_not_refused()
    ensures { DoomIsNotRefused }
{}
