//! The words of a BLOCKMAP.

ghost use Rattle.std.specs.Prelude.{◌≡◌, ◌↔◌, ◌<◌, ℤ, pos, ◌<ℤ◌, ◌-◌, ◌≤◌, List, length, take};
ghost use Rattle.std.specs.Prelude.{drop, IfSome, IfNone, IsTrue, Some};
ghost use Rattle.std.specs.List.{slice_get};
ghost use Rattle.map_tables.specs.Words.{words_under, IsListAt, ListsBeginBelow, HasOffset};
ghost use Rattle.map_tables.specs.Words.{IsOffsetOutside};

use crate::block_lines::BlockLines;
use le_rec::{Table, Word};
use map_level::{Reading, number};
use std::marker::Model;

/// The words of a lump under a reading. It borrows the bytes.
#[derive(Drop)]
pub struct Words<'a> {
    bytes: &'a [u8],
    reading: Reading,
}

impl<'a> Model for Words<'a> {
    ghost use Rattle.map_tables.specs.Words as words;
    ghost use Rattle.map_tables.specs.Words.{words_under};

    ghost Value = { words.Words };

    ghost view = { λ w. words_under w.reading w.bytes.now };
}

impl<'a> Words<'a> {
    /// The words that the bytes hold.
    #[inline]
    pub fn of(bytes: &'a [u8], reading: Reading) -> Words<'a>
        ensures { result ≡ words_under reading bytes.now }
    {
        Words { bytes, reading }
    }

    /// How many words there are.
    #[inline]
    pub fn len(&self) -> usize
        ensures { result ≡ length self.now.numbers }
    {
        Table::<Word>::of(self.bytes).len()
    }

    /// The word of a number, counted from 0.
    #[inline]
    pub fn get(&self, i: usize) -> Option<i32>
        ensures { result ≡ slice_get self.now.numbers i }
    {
        let word = Table::<Word>::of(self.bytes).get(i)?;
        Some(number(word.number, self.reading))
    }

    /// Whether the word of a number ends a list.
    #[inline]
    pub fn is_end(&self, i: usize) -> bool
        ensures { IsTrue result ↔ (slice_get self.now.numbers i ≡ Some self.now.end) }
    {
        match self.get(i) {
            Some(word) => word == number(-1, self.reading),
            None => false,
        }
    }

    /// The number of a word: a list begins at each word below it, and at no other.
    pub fn reach(&self) -> usize
        ensures { ListsBeginBelow self.now result }
    {
        for i in (0..self.len()).rev() {
            if self.is_end(i) {
                return i + 1;
            }
        }
        0
    }

    /// The word at which the list of block n begins.
    #[inline]
    pub fn offset(&self, n: u32) -> Option<usize>
        ensures some { IfSome result (HasOffset self.now n) }
        ensures inside { IfSome result (λ place. place < length self.now.numbers) }
        ensures none { IfNone result (IsOffsetOutside self.now n) }
    {
        let place = natural(self.get(4 + n as usize)?)?;
        (place < self.len()).then_some(place)
    }

    /// The list that begins at a word.
    pub fn list_at(&self, place: usize) -> Option<BlockLines<'a>>
        ensures some { IfSome result (IsListAt self.now place) }
        ensures none { IfNone result ((list : List ℤ) → ¬ IsListAt self.now place list) }
    {
        let end = self.end_from(place)?;
        Some(self.part(place, end))
    }

    // The first end word from a word on.
    fn end_from(&self, place: usize) -> Option<usize>
        ensures list { IfSome result
            (λ i. IsListAt self.now place (take (i - place) (drop place self.now.numbers))) }
        ensures from { IfSome result (λ i. place ≤ i) }
        ensures within { IfSome result (λ i. i < length self.now.numbers) }
        ensures none { IfNone result ((list : List ℤ) → ¬ IsListAt self.now place list) }
    {
        for i in place..self.len() {
            if self.is_end(i) {
                return Some(i);
            }
        }
        None
    }

    // The words from one on, up to another.
    fn part(&self, from: usize, to: usize) -> BlockLines<'a>
        requires ordered { from ≤ to }
        requires within { to ≤ length self.now.numbers }
        ensures { result ≡ take (to - from) (drop from self.now.numbers) }
    {
        BlockLines::of(&self.bytes[2 * from..2 * to], self.reading)
    }
}

// The number, where it is not negative.
#[inline]
fn natural(number: i32) -> Option<usize>
    ensures value { IfSome result (λ n. number ≡ pos n) }
    ensures negative { IfNone result (number <ℤ pos 0) }
{
    if number < 0 {
        return None;
    }
    Some(number as usize)
}
