//! The command line of `wadlens`: its commands, their arguments with what help says of them, and the usage.
#![tactic(auto)]

mod arg_row;
mod atlas_rows;
mod command_line;
mod command_rows;
mod judging_rows;
mod picture_rows;
mod shared_rows;

pub use command_line::{program, usage};
