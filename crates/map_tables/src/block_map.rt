//! A level's BLOCKMAP: its square blocks, and the list of linedefs of each.

ghost use Rattle.std.specs.Prelude.{◌≡◌, ◌↔◌, ◌⊎◌, ℕ, ◌^◌, ◌+◌, ◌<◌, ◌≤◌, pos, length, IfSome};
ghost use Rattle.std.specs.Prelude.{IfNone, IsNone, IfOk, IsErrOf, IsTrue};
ghost use Rattle.std.specs.Int.{int_div_euclid};
ghost use Rattle.map_geo.specs.Point.{IsInRange};
ghost use Rattle.map_tables.specs.Words.{ListsBeginBelow, IsBlockList, IsOffsetOutside, HasNoEnd};
ghost use Rattle.map_tables.specs.TableFaults.{LacksOffsets, IsFaultyBlock};
ghost use Rattle.map_tables.specs.BlockMap.{head, block_map_of, count_of, block_count};
ghost use Rattle.map_tables.specs.BlockMap.{block_number, IsBlockAlong, IsBlockOf};

use crate::block_lines::BlockLines;
use crate::words::Words;
use le_rec::{Table, Word};
use map_geo::Point;
use map_level::Reading;
use std::marker::Model;
use thiserror::Error;

// The width and the height of a block, in map units (MAPBLOCKUNITS of p_local.h).
const BLOCK_UNITS: i32 = 128;

/// Why a block has no list.
#[derive(Clone, Copy, Debug, PartialEq, Eq, Error)]
pub enum BlockFault {
    /// 1: the lump has no word for the block's offset, or the offset is none of its words.
    #[error("its list isn't inside BLOCKMAP")]
    OffsetOutside,
    /// 2: no end word stands at the offset or after it.
    #[error("its list has no end")]
    NoEnd,
}

/// A level's BLOCKMAP: for each square block of 128 map units a list of linedefs. It borrows the lump's bytes.
#[derive(Drop)]
pub struct BlockMap<'a> {
    words: Words<'a>,
    x: i16,
    y: i16,
    width: i16,
    height: i16,
    // Lists that begin below this word have an end.
    reach: usize,
}

impl<'a> Model for BlockMap<'a> {
    ghost use Rattle.map_tables.specs.Words.{ListsBeginBelow};
    ghost use Rattle.map_tables.specs.BlockMap as block_map;

    ghost Value = { block_map.BlockMap };

    ghost view = { λ m. record {
      x = m.x;
      y = m.y;
      width = m.width;
      height = m.height;
      words = m.words;
    } };

    ghost invariant = { λ m. ListsBeginBelow m.words m.reach };
}

impl<'a> BlockMap<'a> {
    /// The blockmap of a lump, or None if it has fewer than 8 bytes. Origin, width and height are
    /// signed under both readings.
    pub fn of(bytes: &'a [u8], reading: Reading) -> Option<BlockMap<'a>>
        ensures some { IfSome result (λ map. map ≡ block_map_of reading bytes.now) }
        ensures none { IsNone result ↔ (length bytes.now < 8) }
    {
        if bytes.len() < 8 {
            return None;
        }
        let words = Words::of(bytes, reading);
        let reach = words.reach();
        Some(BlockMap {
            words,
            x: head(bytes, 0),
            y: head(bytes, 1),
            width: head(bytes, 2),
            height: head(bytes, 3),
            reach,
        })
    }

    /// How many blocks a row has, as the lump says it. Negative: there are no blocks.
    #[inline]
    pub fn width(&self) -> i16
        ensures { result ≡ self.now.width }
    {
        self.width
    }

    /// How many blocks a column has, as the lump says it. Negative: there are no blocks.
    #[inline]
    pub fn height(&self) -> i16
        ensures { result ≡ self.now.height }
    {
        self.height
    }

    /// The column and the row of the block that holds a point.
    pub fn block_of(&self, point: Point) -> Option<(u16, u16)>
        ensures some { IfSome result (λ block. IsBlockOf self.now point block.0 block.1) }
        ensures none { IsNone result ↔ ((bx by : ℕ) → ¬ IsBlockOf self.now point bx by) }
    {
        let bx = block_along(self.x, self.width, point.x())?;
        let by = block_along(self.y, self.height, point.y())?;
        Some((bx, by))
    }

    /// The list of the block in column bx and row by. `BlockFault` says why there is none.
    pub fn list(&self, bx: u16, by: u16) -> Result<BlockLines<'a>, BlockFault>
        requires column { bx < count_of self.now.width }
        requires row { by < count_of self.now.height }
        ensures list { IfOk result (IsBlockList self.now.words (block_number self.now bx by)) }
        ensures outside { IsErrOf result BlockFault.OffsetOutside
            ↔ IsOffsetOutside self.now.words (block_number self.now bx by) }
        ensures no_end { IsErrOf result BlockFault.NoEnd
            ↔ HasNoEnd self.now.words (block_number self.now bx by) }
    {
        let n = u32::from(by) * u32::from(count(self.width)) + u32::from(bx);
        list_of(&self.words, self.reach, n)
    }

    // How many blocks there are.
    fn block_count(&self) -> u32
        ensures value { result ≡ block_count self.now }
        ensures below { result < 2 ^ 30 }
    {
        u32::from(count(self.width)) * u32::from(count(self.height))
    }

    // Whether some block has no word for its offset.
    pub(crate) fn lacks_offsets(&self) -> bool
        ensures { IsTrue result ↔ LacksOffsets self.now }
    {
        let blocks = self.block_count();
        0 < blocks && self.words.len() < 4 + blocks as usize
    }

    // How many blocks have a word for their offset.
    pub(crate) fn offset_count(&self) -> u32
        ensures { (n : ℕ) → IsFaultyBlock self.now n → n < result }
    {
        let blocks = self.block_count();
        let offsets = self.words.len().saturating_sub(4);
        offsets.min(blocks as usize) as u32
    }

    // Whether block n has a word for its offset and no list.
    pub(crate) fn is_faulty_block(&self, n: u32) -> bool
        ensures { IsTrue result ↔ IsFaultyBlock self.now n }
    {
        if n >= self.block_count() || 4 + n as usize >= self.words.len() {
            return false;
        }
        has_no_list(&self.words, self.reach, n)
    }
}

// Whether block n has no list.
#[inline]
fn has_no_list(words: &Words<'_>, reach: usize, n: u32) -> bool
    requires { ListsBeginBelow words.now reach }
    ensures { IsTrue result ↔ (IsOffsetOutside words.now n ⊎ HasNoEnd words.now n) }
{
    match words.offset(n) {
        Some(place) => place >= reach,
        None => true,
    }
}

// The list of block n. It searches for no end past the last end word.
fn list_of<'a>(words: &Words<'a>, reach: usize, n: u32) -> Result<BlockLines<'a>, BlockFault>
    requires { ListsBeginBelow words.now reach }
    ensures list { IfOk result (IsBlockList words.now n) }
    ensures outside { IsErrOf result BlockFault.OffsetOutside ↔ IsOffsetOutside words.now n }
    ensures no_end { IsErrOf result BlockFault.NoEnd ↔ HasNoEnd words.now n }
{
    let Some(place) = words.offset(n) else {
        return Err(BlockFault::OffsetOutside);
    };
    if place >= reach {
        return Err(BlockFault::NoEnd);
    }
    words.list_at(place).ok_or(BlockFault::NoEnd)
}

// Signed word k of a lump.
#[inline]
fn head(bytes: &[u8], k: usize) -> i16
    ensures { result ≡ head bytes.now k }
{
    match Table::<Word>::of(bytes).get(k) {
        Some(word) => word.number,
        None => 0,
    }
}

/// How many blocks a row or a column of a BLOCKMAP has, by word 2 or 3 of its head: 0 if that is negative or missing. It
/// doesn't look through the lump, as `BlockMap::of` does.
#[inline]
pub fn blocks_along(bytes: &[u8], k: usize) -> u16
    ensures value { result ≡ count_of (head bytes.now k) }
    ensures below { result < 32768 }
{
    count(head(bytes, k))
}

// A width or a height as a number of blocks.
#[inline]
fn count(size: i16) -> u16
    ensures value { result ≡ count_of size }
    ensures below { result < 32768 }
{
    if size < 0 { 0 } else { size as u16 }
}

// Which block of a row or a column, with its origin and so many blocks, holds a coordinate.
#[inline]
fn block_along(origin: i16, blocks: i16, z: i32) -> Option<u16>
    requires { IsInRange z }
    ensures some { IfSome result (IsBlockAlong origin z) }
    ensures inside { IfSome result (λ k. k < count_of blocks) }
    ensures none { IfNone result ((k : ℕ) → IsBlockAlong origin z k → count_of blocks ≤ k) }
{
    let block = floor_blocks(z - i32::from(origin));
    if block < 0 || block >= i32::from(blocks) {
        return None;
    }
    Some(block as u16)
}

// How many whole blocks of 128 map units lie in a distance, rounded down also if it is negative.
#[inline]
fn floor_blocks(distance: i32) -> i32
    ensures { result ≡ int_div_euclid distance (pos 128) }
{
    distance.div_euclid(BLOCK_UNITS)
}
