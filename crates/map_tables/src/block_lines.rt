//! The list of a block, read from the words of the lump.

ghost use Rattle.std.specs.Prelude.{◌≡◌, length};
ghost use Rattle.std.specs.List.{slice_get};
ghost use Rattle.std.specs.Iterator.{YieldsFirst, item_count};
ghost use Rattle.map_tables.specs.Words.{words_under};

use crate::words::Words;
use le_rec::{Record, Word};
use map_level::{Reading, number};
use std::marker::Model;

/// The linedefs of a block, in the order of its list, with the first word too, which most builders
/// set to 0. These are the words under the reading. Whether they name linedefs isn't tested.
#[derive(Drop)]
pub struct BlockLines<'a> {
    bytes: &'a [u8],
    reading: Reading,
}

impl<'a> Model for BlockLines<'a> {
    ghost use Rattle.std.specs.Prelude.{List, ℤ};
    ghost use Rattle.map_tables.specs.Words.{words_under};

    ghost Value = { List ℤ };

    ghost view = { λ l. (words_under l.reading l.bytes.now).numbers };
}

impl<'a> BlockLines<'a> {
    // The list of the words that the bytes hold.
    pub(crate) fn of(bytes: &'a [u8], reading: Reading) -> BlockLines<'a>
        ensures { result ≡ (words_under reading bytes.now).numbers }
    {
        BlockLines { bytes, reading }
    }

    /// How many there are.
    #[inline]
    pub fn len(&self) -> usize
        ensures { result ≡ length self.now }
    {
        Words::of(self.bytes, self.reading).len()
    }

    /// The one of a number, counted from 0.
    #[inline]
    pub fn get(&self, i: usize) -> Option<i32>
        ensures { result ≡ slice_get self.now i }
    {
        Words::of(self.bytes, self.reading).get(i)
    }
}

impl<'a> Iterator for BlockLines<'a> {
    type Item = i32;

    ghost next_gives = { YieldsFirst (λ lines. lines) };

    ghost remaining = { item_count (λ lines. lines) };

    #[inline]
    fn next(&mut self) -> Option<i32> {
        let (word, after) = self.bytes.split_at_checked(2)?;
        self.bytes = after;
        Some(number(Word::read(word).number, self.reading))
    }
}
