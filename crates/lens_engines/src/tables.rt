//! How large the lumps of a level are.

ghost use Rattle.std.specs.Prelude.{◌≡◌};
ghost use Rattle.lens_engines.specs.Tables.{tables_of};

use map_level::Level;

/// How many records the eight tables of a level have, and how many bytes its REJECT and its BLOCKMAP.
#[derive(Clone, Copy, Debug, PartialEq, Eq)]
pub struct Tables {
    pub things: u64,
    pub linedefs: u64,
    pub sidedefs: u64,
    pub vertexes: u64,
    pub segs: u64,
    pub ssectors: u64,
    pub nodes: u64,
    pub sectors: u64,
    /// Bytes, as of the next.
    pub reject: u64,
    pub blockmap: u64,
}

impl Tables {
    /// Those of a level.
    pub fn of(level: &Level<'_>) -> Tables
        ensures { result ≡ tables_of level.now }
    {
        Tables {
            things: level.things().len() as u64,
            linedefs: level.linedefs().len() as u64,
            sidedefs: level.sidedefs().len() as u64,
            vertexes: level.vertexes().len() as u64,
            segs: level.segs().len() as u64,
            ssectors: level.ssectors().len() as u64,
            nodes: level.nodes().len() as u64,
            sectors: level.sectors().len() as u64,
            reject: level.reject().len() as u64,
            blockmap: level.blockmap().len() as u64,
        }
    }
}
