//! Ends of streams over memory: a slice as a source, a growing vector as a sink, and a text at the front of a caller's slice.
#![tactic(auto)]

mod from_slice;
mod front;
mod to_vec;

pub use from_slice::FromSlice;
pub use front::hand_out;
pub use to_vec::ToVec;
