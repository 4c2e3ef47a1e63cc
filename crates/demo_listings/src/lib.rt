//! Demos of all engines that are read, in lines of text: the listing of a demo, and where two demos first differ. The engines take
//! demos, and write to a sink.
#![tactic(auto)]

mod command_text;
mod compare;
mod heads;
pub mod laws;
mod listing;
mod meaning;
mod numbers;
mod options;
mod wrapper_line;

pub use command_text::prepend_ticcmd;
pub use compare::compare_demos;
pub use listing::write_listing;
pub use meaning::Compared;
