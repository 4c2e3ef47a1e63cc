//! Laws over the definitions alone, each the contract of a function that does nothing: a caller gets the law
//! from a call.

ghost use Rattle.node_lumps.specs.Laws.{NeverBoth, OneReading, OneReason, ReadOrBroken};

/// The lumps of a level hold at most one reading of its nodes.
pub fn one_reading()
    ensures { OneReading }
{}

/// The nodes are read, or broken for one reason, and never both.
pub fn read_or_broken()
    ensures either { ReadOrBroken }
    ensures never_both { NeverBoth }
    ensures one_reason { OneReason }
{}
