//! What a picture of a level shows: its frame, and which sector is shown at a point and at each cell of a grid, and the blocks of cells that
//! show one sector.
#![tactic(auto)]

mod block;
mod cell_count;
mod cells;
mod change;
mod ends;
mod frame;
mod front;
mod grid;
mod groups;
pub mod laws;
mod row;
mod sector_counts;
mod seen;
mod shown;
mod way;

pub use block::Block;
pub use cell_count::CellCount;
pub use cells::Cells;
pub use ends::{Ends, line_ends, linedef_ends, seg_ends};
pub use frame::Frame;
pub use grid::Grid;
pub use groups::Groups;
pub use sector_counts::SectorCounts;
pub use shown::Shown;
