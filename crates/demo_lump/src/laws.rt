//! Laws over the definitions alone, each the contract of a function that does
//! nothing: a caller gets the law from a call.

ghost use Rattle.demo_lump.specs.Laws.{CommandSizes, NeverBoth, OneMoreCommand, OneReading};
ghost use Rattle.demo_lump.specs.Laws.{OneRefusal, PiecesAreDemo, PiecesAreRefused, ReadOrRefused};
ghost use Rattle.demo_lump.specs.Laws.{ReadsAs109, StopsBehind};

/// Bytes have at most one reading as a demo.
pub fn one_reading()
    ensures { OneReading }
{}

/// Bytes have one reading or one refusal, and never both.
pub fn read_or_refused()
    ensures either { ReadOrRefused }
    ensures never_both { NeverBoth }
    ensures one_refusal { OneRefusal }
{}

/// A demo taken piece by piece is the same as the demo of all bytes.
pub fn pieces_are_the_demo()
    ensures demo { PiecesAreDemo }
    ensures refused { PiecesAreRefused }
{}

/// For a caller that takes one command after another: so many bytes are a command, one more command
/// makes commands again, and what refuses the next piece refuses the demo.
pub fn commands_go_on()
    ensures sizes { CommandSizes }
    ensures more { OneMoreCommand }
    ensures stopped { StopsBehind }
{}

/// A demo of version 109 is read as if there were no other version.
pub fn reads_as_109_alone()
    ensures { ReadsAs109 }
{}
