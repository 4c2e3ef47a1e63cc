//! A block of BLOCKMAP and its list.

ghost use Rattle.std.specs.Prelude.{◌≡◌, ◌+◌, ◌<◌, ℕ, pos, IfOk, OnOk, IfErr, IfSome, IfNone, slice_get};
ghost use Rattle.map_geo.specs.Point.{point_at};
ghost use Rattle.map_tables.specs.BlockMap.{block_map_of, block_number, count_of};
ghost use Rattle.map_tables.specs.Words.{HasOffset, words_under};
ghost use Rattle.wadlook_c.specs.Blocks.{IsAsked, RefusesBlock, RefusesBlockOf, RefusesList, TellsBlock, TellsList, unlisted_number};
ghost use Rattle.wadlook_c.specs.Ends.{reading_of};

use crate::opening::reading_of;
use crate::points::WadlookPoint;
use crate::status::{DONE, NO_BLOCK, NO_BLOCKMAP, NO_END, OFFSET_OUTSIDE, OUT_OF_RANGE};
use le_rec::{Table, Word};
use map_geo::Point;
use map_level::{Reading, number};
use map_tables::{BlockFault, BlockMap};

/// The block of a point, and its list: the number of its first word in BLOCKMAP, from 0, and how
/// many words it has.
#[repr(C)]
#[derive(Clone, Copy)]
pub struct WadlookBlock {
    pub column: u32,
    pub row: u32,
    pub first: usize,
    pub count: usize,
}

/// Why a point has no list.
#[derive(Clone, Copy)]
pub enum Unlisted {
    /// The lump has fewer than 8 bytes.
    NoBlockMap,
    /// A coordinate is out of range.
    OutOfRange,
    /// No block holds the point.
    NoBlock,
    /// The block's offset is missing, or is no word of the lump.
    OffsetOutside,
    /// The list has no end.
    NoEnd,
}

/// Writes to `block` the block that holds a point, and where its list lies in BLOCKMAP's bytes. It
/// returns 0, or else the status of a refusal.
#[unsafe(no_mangle)]
pub extern "C" fn wadlook_block(
    blockmap: &[u8],
    wide: bool,
    point: WadlookPoint,
    block: &mut WadlookBlock,
) -> u32
    ensures done { result ≡ 0 → IsAsked point
        × TellsBlock (block_map_of (reading_of wide) blockmap.now) (point_at point.x point.y) block.new }
    ensures refused { ¬ (result ≡ 0) → (why : Unlisted) × (result ≡ unlisted_number why)
        × RefusesBlock (reading_of wide) blockmap.now point why }
    ensures untouched { ¬ (result ≡ 0) → block.new ≡ block.old }
{
    match block_in(blockmap, reading_of(wide), point) {
        Ok(found) => {
            *block = found;
            DONE
        }
        Err(why) => unlisted_number(why),
    }
}

// The block of a point.
fn block_in(
    blockmap: &[u8],
    reading: Reading,
    asked: WadlookPoint,
) -> Result<WadlookBlock, Unlisted>
    ensures ok { IfOk result (TellsBlock (block_map_of reading blockmap.now) (point_at asked.x asked.y)) }
    ensures asked { OnOk result (IsAsked asked) }
    ensures err { IfErr result (RefusesBlock reading blockmap.now asked) }
{
    let Some(map) = BlockMap::of(blockmap, reading) else {
        return Err(Unlisted::NoBlockMap);
    };
    match Point::new(asked.x, asked.y) {
        Some(point) => block_of(blockmap, reading, &map, point),
        None => Err(Unlisted::OutOfRange),
    }
}

// The block of a point in range.
fn block_of(
    blockmap: &[u8],
    reading: Reading,
    map: &BlockMap<'_>,
    point: Point,
) -> Result<WadlookBlock, Unlisted>
    requires { map.now ≡ block_map_of reading blockmap.now }
    ensures ok { IfOk result (TellsBlock map.now point) }
    ensures err { IfErr result (RefusesBlockOf map.now point) }
{
    let Some((column, row)) = map.block_of(point) else {
        return Err(Unlisted::NoBlock);
    };
    let (first, count) = list_of(blockmap, reading, map, column, row)?;
    Ok(WadlookBlock {
        column: u32::from(column),
        row: u32::from(row),
        first,
        count,
    })
}

// The first word of a block's list, and how many there are.
fn list_of(
    blockmap: &[u8],
    reading: Reading,
    map: &BlockMap<'_>,
    column: u16,
    row: u16,
) -> Result<(usize, usize), Unlisted>
    requires map { map.now ≡ block_map_of reading blockmap.now }
    requires column { column < count_of map.now.width }
    requires row { row < count_of map.now.height }
    ensures ok { IfOk result (λ list. TellsList map.now (block_number map.now column row) list.0 list.1) }
    ensures err { IfErr result (RefusesList map.now (block_number map.now column row)) }
{
    let number = u32::from(row) * u32::from(count(map.width())) + u32::from(column);
    let Some(first) = offset_of(blockmap, reading, number) else {
        return Err(Unlisted::OffsetOutside);
    };
    match map.list(column, row) {
        Ok(lines) => Ok((first, lines.len())),
        Err(BlockFault::OffsetOutside) => Err(Unlisted::OffsetOutside),
        Err(BlockFault::NoEnd) => Err(Unlisted::NoEnd),
    }
}

// The word at which a block's list begins.
fn offset_of(blockmap: &[u8], reading: Reading, block: u32) -> Option<usize>
    ensures some { IfSome result (HasOffset (words_under reading blockmap.now) block) }
    ensures none { IfNone result ((place : ℕ) → ¬ HasOffset (words_under reading blockmap.now) block place) }
{
    natural(word_at(blockmap, reading, 4 + block as usize)?)
}

// A word of a lump.
fn word_at(bytes: &[u8], reading: Reading, k: usize) -> Option<i32>
    ensures { result ≡ slice_get (words_under reading bytes.now).numbers k }
{
    let word = Table::<Word>::of(bytes).get(k)?;
    Some(number(word.number, reading))
}

// The number, where it isn't negative.
fn natural(number: i32) -> Option<usize>
    ensures value { IfSome result (λ n. number ≡ pos n) }
    ensures negative { IfNone result ((n : ℕ) → ¬ (number ≡ pos n)) }
{
    if number < 0 {
        return None;
    }
    Some(number as usize)
}

// A width as a number of blocks.
fn count(size: i16) -> u16
    ensures value { result ≡ count_of size }
    ensures below { result < 32768 }
{
    if size < 0 { 0 } else { size as u16 }
}

// The status for why there is no list.
fn unlisted_number(why: Unlisted) -> u32
    ensures { result ≡ unlisted_number why }
{
    match why {
        Unlisted::NoBlockMap => NO_BLOCKMAP,
        Unlisted::OutOfRange => OUT_OF_RANGE,
        Unlisted::NoBlock => NO_BLOCK,
        Unlisted::OffsetOutside => OFFSET_OUTSIDE,
        Unlisted::NoEnd => NO_END,
    }
}
