//! Why nodes are broken.

use crate::format::NodeLump;
use crate::parts::Part;
use std::error::Error;
use std::fmt;

/// Why a level's nodes are broken: the first reason that holds, in this order.
#[derive(Clone, Copy, Debug, PartialEq, Eq)]
pub enum Broken {
    /// The lump, and the first of its parts of which the count or a record isn't wholly there.
    EndsWithin(NodeLump, Part),
    /// How many segs the ssectors have, all added up, and how many segs there are.
    Segs(u64, u64),
    /// With how many records of `VERTEXES` the nodes go, and how many there are.
    Vertexes(u64, u64),
}

impl fmt::Display for Broken {
    ghost use Rattle.std.specs.Prelude.{Some};
    ghost use Rattle.node_lumps.specs.Words.{broken_text};

    ghost output = { λ why. Some (broken_text why) };

    fn fmt<W: fmt::Write>(&self, f: &mut fmt::Formatter<W>) -> fmt::Result {
        match *self {
            Broken::EndsWithin(lump, part) => write!(
                f,
                "{} ends within its {}",
                lump.name(),
                part.name()
            ),
            Broken::Segs(counted, there) => write!(
                f,
                "its ssectors have {counted} segs, {there} are there"
            ),
            Broken::Vertexes(made, there) => write!(
                f,
                "made for {made} vertexes, VERTEXES has {there}"
            ),
        }
    }
}

impl Error for Broken {}
