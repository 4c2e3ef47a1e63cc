//! Laws over the definitions alone, each the contract of a function that does nothing: a caller gets the law
//! from a call.

ghost use Rattle.later_demos.specs.Laws.{DoomIsRead, DoomIsRefused, HeadersHavePlayers, NeverBoth, OneFooter, OneReading, OneRefusal, ReadOrRefused};

/// Bytes have at most one reading as a demo.
pub fn one_reading()
    ensures { OneReading }
{}

/// Bytes have one reading or one refusal, and never both.
pub fn read_or_refused()
    ensures either { ReadOrRefused }
    ensures never_both { NeverBoth }
    ensures one_refusal { OneRefusal }
{}

/// A demo of Doom 1.9 that stands in no wrapper has the reading, or the refusal, that `demo_lump` gives it.
pub fn reads_doom()
    ensures read { DoomIsRead }
    ensures refused { DoomIsRefused }
{}

/// The headers of each version have room for the players' bytes, and at most 301 bytes without compatibility options.
pub fn headers_have_players()
    ensures { HeadersHavePlayers }
{}

/// The bytes behind a marker tell one thing.
pub fn one_footer()
    ensures { OneFooter }
{}
