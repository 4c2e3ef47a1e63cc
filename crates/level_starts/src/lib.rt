//! The levels of a file: where each starts, and in which format it is.
#![tactic(auto)]

mod format;
mod holders;
pub mod laws;
mod order;
mod starts;

pub use format::{Format, format_of};
pub use holders::Holders;
pub use order::lump_in_place;
pub use starts::{LevelStarts, is_named, next_start};
