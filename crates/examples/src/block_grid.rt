//! How many blocks a level is cut into.

ghost use Rattle.std.specs.Prelude.{◌≡◌, ◌<◌, ◌^◌, ◌↔◌, length, IfSome, IsNone};
ghost use Rattle.map_tables.specs.BlockMap.{block_count, block_map_of, count_of};

use map_level::Reading;
use map_tables::BlockMap;

/// How many blocks a level's BLOCKMAP has, by the lump's head; None if it is too short for a head.
pub fn blocks_in(blockmap: &[u8], reading: Reading) -> Option<u32>
    ensures some { IfSome result (λ blocks. blocks ≡ block_count (block_map_of reading blockmap.now)) }
    ensures none { IsNone result ↔ (length blockmap.now < 8) }
{
    let map = BlockMap::of(blockmap, reading)?;
    Some(count_of(map.width()) * count_of(map.height()))
}

// How many columns or rows there are: none if the number is negative.
fn count_of(stored: i16) -> u32
    ensures value { result ≡ count_of stored }
    ensures few { result < 2 ^ 15 }
{
    if stored < 0 { 0 } else { stored as u32 }
}
