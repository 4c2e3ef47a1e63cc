//! The nodes of levels whose node builder wrote a later format than Doom's: extended nodes, GL nodes and those of
//! DeePBSP. They are read where they stand in the level's lumps.
#![tactic(auto)]

mod broken;
mod format;
pub mod laws;
mod lumps;
mod nodes;
mod number;
mod parts;
mod piece;
mod records;
mod ssectors;

pub use broken::Broken;
pub use format::{NodeFormat, NodeLump};
pub use lumps::{LeftOver, NodeLumps};
pub use nodes::LaterNodes;
pub use parts::Part;
pub use records::{FineVertex, LaterNode, LaterSeg, LaterSsector, NodeChild, SegLine};
pub use ssectors::Ssectors;
