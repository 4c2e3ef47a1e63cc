//! What demos hold: a line or an object of JSON for each demo of a file, and a demo assembled from its listing. The engines take
//! bytes, and a path to print, and write to a sink.
#![tactic(auto)]

mod assembly;
mod command_line;
mod demos;
mod header_line;
pub mod laws;
mod numbers;
mod object;
mod refusal;
mod summary;

pub use assembly::{AssembleFault, Wanted, assemble};
pub use demos::{DemoQuestion, DemosFault, demos_file};
pub use refusal::write_demo_refusal;
