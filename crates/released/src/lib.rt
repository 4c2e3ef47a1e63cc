//! Routines of linuxdoom 1.10 as it computes them, on numbers of 32 bits with its shortcuts, and that they give what the
//! libraries define: the side of a point, its ssector and that one's sector, bits of REJECT, lists of BLOCKMAP, commands of
//! demos, read and written, their headers, and the lump of a name.
#![tactic(auto)]

mod block;
pub mod laws;
mod leaf;
mod name;
mod recording;
mod sector;
mod side;
mod sight;
mod ticcmd;

pub use block::released_list;
pub use leaf::released_leaf;
pub use name::released_number;
pub use recording::{released_header, released_written};
pub use sector::{released_back, released_sector};
pub use side::{FixedNode, fixed, fixed_mul, released_side, released_side_at};
pub use sight::{released_sight_bit, released_sight_bit_at};
pub use ticcmd::{Ticcmd, released_ticcmd};
