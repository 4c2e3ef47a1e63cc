//! Doom's WAD files: the directory, the lookup of a name over several files, the lumps, and the
//! packing of lumps into a new file (`w_wad.c` of linuxdoom 1.10).
#![tactic(auto)]

mod file_bytes;
mod header;
pub mod laws;
mod lump;
mod packer;
mod set;
mod standing;
mod wad;

pub use file_bytes::AsBytes;
pub use header::Kind;
pub use lump::LumpFault;
pub use packer::{MAX_BYTES, PackFault, Packer};
pub use set::{MAX_FILES, Place, Set, SetFault};
pub use wad::{Wad, WadFault};
