//! What can be read of a level that isn't judged: one whose nodes or lumps aren't there, or in Hexen's format. Its linedefs and
//! things are given as numbers, for a host that draws them.
#![tactic(auto)]

mod numbers;
mod own;
mod records;
mod sketch;

pub use numbers::sketch_numbers;
pub use own::own_place;
pub use records::Form;
pub use sketch::{Lump, Sketch, sketch_of};
