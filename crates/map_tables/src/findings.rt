//! The table part of a report.

ghost use Rattle.std.specs.Prelude.{◌≡◌, ◌↔◌, ℕ, ◌<◌, IfOk, IsTrue};
ghost use Rattle.map_level.specs.Findings.{AreFindings};
ghost use Rattle.map_tables.specs.TableFaults.{TableHolds, RejectSizeDiffers, BlockMapShort};
ghost use Rattle.map_tables.specs.TableFaults.{BlockFaulty};

use crate::block_map::BlockMap;
use map_level::search::{Search, Searched, all_findings, first_where};
use map_level::{Code, Findings, Level};
use std::alloc::{AllocError, Allocator};
use std::marker::Model;

/// The findings on a level's REJECT and BLOCKMAP, N8 to N10, by code and then by index.
pub fn table_findings<A: Allocator>(alloc: A, level: &Level<'_>) -> Result<Findings<A>, AllocError>
    ensures { IfOk result (AreFindings (TableHolds level.now)) }
{
    all_findings(alloc, &Tables::of(level))
}

/// A level whose REJECT and BLOCKMAP are looked at. BLOCKMAP, if there is one, was searched once for its last end word.
#[derive(Drop)]
pub struct Tables<'l, 'a> {
    level: &'l Level<'a>,
    map: Option<BlockMap<'a>>,
}

impl<'l, 'a> Model for Tables<'l, 'a> {
    ghost use Rattle.std.specs.Prelude.{◌≡◌, ◌<◌, ◌≤◌, length, MatchOption};
    ghost use Rattle.map_level.specs.Level.{Level};
    ghost use Rattle.map_tables.specs.TableFaults.{map_of};

    ghost Value = { Level };

    ghost view = { λ t. t.level.now };

    ghost invariant = { λ t. MatchOption t.map (length t.level.now.blockmap < 8)
        (λ map. (8 ≤ length t.level.now.blockmap) × (map ≡ map_of t.level.now)) };
}

impl<'l, 'a> Searched for Tables<'l, 'a> {
    ghost use Rattle.map_tables.specs.TableFaults.{TableHolds};

    ghost holds = { TableHolds };
}

impl<'l, 'a> Search for Tables<'l, 'a> {
    fn first(&self, code: Code, from: u32) -> Option<u32> {
        match code {
            Code::N8 => first_where(self, code, from, 1, |i| self.reject_size_differs(i)),
            Code::N9 => first_where(self, code, from, 1, |i| self.is_short(i)),
            Code::N10 => first_where(
                self,
                code,
                from,
                self.offset_count(),
                |n| self.is_faulty_block(n),
            ),
            _ => None,
        }
    }
}

impl<'l, 'a> Tables<'l, 'a> {
    /// The two lumps of a level.
    pub fn of(level: &'l Level<'a>) -> Tables<'l, 'a>
        ensures { result ≡ level.now }
    {
        let map = BlockMap::of(level.blockmap(), level.reading());
        Tables { level, map }
    }

    // N8
    fn reject_size_differs(&self, i: u32) -> bool
        ensures { IsTrue result ↔ RejectSizeDiffers self.now i }
    {
        let sectors = self.level.sectors().len();
        i == 0 && self.level.reject().len() != (sectors * sectors).div_ceil(8)
    }

    // N9
    fn is_short(&self, i: u32) -> bool
        ensures { IsTrue result ↔ BlockMapShort self.now i }
    {
        match &self.map {
            Some(map) => i == 0 && map.lacks_offsets(),
            None => i == 0,
        }
    }

    // N10
    fn is_faulty_block(&self, n: u32) -> bool
        ensures { IsTrue result ↔ BlockFaulty self.now n }
    {
        match &self.map {
            Some(map) => map.is_faulty_block(n),
            None => false,
        }
    }

    // Above the number of each block with a word for its offset.
    fn offset_count(&self) -> u32
        ensures { (n : ℕ) → BlockFaulty self.now n → n < result }
    {
        match &self.map {
            Some(map) => map.offset_count(),
            None => 0,
        }
    }
}
