//! Levels of WAD files: opening one, and the links between its records.
#![tactic(auto)]

mod finding;
pub mod laws;
mod level;
mod link_bounds;
mod link_codes;
mod link_faults;
pub mod links;
mod reading;
pub mod search;
mod sector_of;

pub use finding::{Code, Finding, Findings};
pub use level::{Level, LevelFault};
pub use link_codes::{Links, link_findings};
pub use link_faults::usual_name;
pub use reading::{Reading, number};
