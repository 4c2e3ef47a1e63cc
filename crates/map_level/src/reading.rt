//! The two readings of a level's indexes.

ghost use Rattle.std.specs.Prelude.{◌≡◌, ◌<ℤ◌, pos};

/// How the indexes of a level are read.
#[derive(Clone, Copy, Debug, PartialEq, Eq)]
pub enum Reading {
    /// As signed numbers, as the released game reads them: a negative one names nothing.
    Signed,
    /// As unsigned numbers, which larger levels use; 65535 stands for -1.
    Wide,
}

ghost use Rattle.map_level.specs.Reading.{number_of};

/// A record's word as an index: the word itself, but under the wide reading a negative word plus
/// 65536.
#[inline]
pub fn number(word: i16, reading: Reading) -> i32
    ensures value { result ≡ number_of reading word }
    ensures below { result <ℤ pos 65536 }
{
    match reading {
        Reading::Wide if word < 0 => i32::from(word) + 65536,
        _ => i32::from(word),
    }
}
