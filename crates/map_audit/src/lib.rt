//! The whole report of a level, and which levels are accepted.
#![tactic(auto)]

mod acceptance;
mod auditing;
pub mod laws;
mod report;

pub use acceptance::{Refused, accept, sound_tree};
pub use auditing::{Parts, audit};
pub use report::Report;
