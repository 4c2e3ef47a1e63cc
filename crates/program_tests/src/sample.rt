//! The sample level's file and files made of it. If memory runs out they end the process, so that a test is a row of calls.

pub use sample_level::{Ends, LINE_WITHOUT_SIDE_1, Lump, UDMF, lumps};
use sample_level::{NOT_REACHED, lines_round, packed, packed_with, packed_with_lines};
use std::process::Abort;

const NO_MEMORY: &str = "no memory for the sample";

/// The lumps, packed.
pub fn pack(rt: &(impl Abort + AllocGlobal), lumps: &[Lump<'_>]) -> Vec<u8> {
    pack_three(rt, lumps, &[], &[])
}

/// The lumps and others behind them, packed.
pub fn pack_both(
    rt: &(impl Abort + AllocGlobal),
    lumps: &[Lump<'_>],
    others: &[Lump<'_>],
) -> Vec<u8> {
    pack_three(rt, lumps, others, &[])
}

/// The lumps of three lists, packed.
pub fn pack_three(
    rt: &(impl Abort + AllocGlobal),
    first: &[Lump<'_>],
    second: &[Lump<'_>],
    third: &[Lump<'_>],
) -> Vec<u8> {
    packed(rt.alloc(), first, second, third).expect(rt, NO_MEMORY)
}

/// The sample level's file.
pub fn base(rt: &(impl Abort + AllocGlobal)) -> Vec<u8> {
    pack(rt, &lumps())
}

/// The sample level's file with other bytes in lumps, by their numbers from 1 to 10.
pub fn base_with(rt: &(impl Abort + AllocGlobal), changes: &[(usize, &[u8])]) -> Vec<u8> {
    packed_with(rt.alloc(), changes).expect(rt, NO_MEMORY)
}

/// The sample level's file with two nodes and two ssectors that the root doesn't lead to.
pub fn base_not_reached(rt: &(impl Abort + AllocGlobal)) -> Vec<u8> {
    base_with(rt, &NOT_REACHED)
}

/// The sample level's file with other linedefs, each with a side in front alone, of sector 0, and with so many vertexes.
pub fn base_with_lines(rt: &(impl Abort + AllocGlobal), lines: &[Ends], count: u16) -> Vec<u8> {
    packed_with_lines(rt.alloc(), lines, count).expect(rt, NO_MEMORY)
}

/// Linedefs round a sector: each goes from a vertex to the next one, and the last one back to the first.
pub fn round(rt: &(impl Abort + AllocGlobal), count: u16) -> Vec<Ends> {
    round_and(rt, count, &[])
}

/// The same, and linedefs besides.
pub fn round_and(rt: &(impl Abort + AllocGlobal), count: u16, others: &[Ends]) -> Vec<Ends> {
    lines_round(rt.alloc(), count, others).expect(rt, NO_MEMORY)
}
