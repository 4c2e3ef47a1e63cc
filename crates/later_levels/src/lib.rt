//! Levels whose nodes stand in a later format: what is wrong with one, whether it is sound, and the sector of each point.
#![tactic(auto)]

mod codes;
mod later_level;
pub mod laws;
mod left;
mod lines;
mod sectors;
mod seg_faults;
mod soundness;
mod ssector_faults;
mod table_bounds;

pub use codes::{Parts, later_findings};
pub use later_level::LaterLevel;
pub use sectors::sector_of;
pub use soundness::is_sound;
