//! Doom's demos of versions 109, 110 and 111: read in memory, written, and read piece by piece from
//! a source (`g_game.c` of linuxdoom 1.10).
#![tactic(auto)]

mod command;
mod demo;
mod fault;
mod header;
mod intake;
pub mod laws;
mod piece;
mod reader;
mod write;

pub use command::Command;
pub use demo::Demo;
pub use fault::{DemoFault, StreamFault};
pub use header::Header;
pub use intake::MAX_READ;
pub use reader::DemoReader;
pub use write::write_demo;
