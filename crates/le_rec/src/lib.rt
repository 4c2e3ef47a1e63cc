//! Little-endian records of Doom's WAD files and levels, names and tables of them, and the ends of
//! streams.
#![tactic(auto)]

mod ends;
mod from_read;
pub mod laws;
mod name;
pub mod number;
mod record;
mod records;
mod table;
mod to_write;

pub use ends::{EndFault, Sink, Source};
pub use from_read::FromRead;
pub use name::{Name8, hex_digit};
pub use record::Record;
pub use records::{Entry, LineDef, Node, SSector, Sector, Seg, SideDef, Thing, Vertex, Word};
pub use table::Table;
pub use to_write::ToWrite;
