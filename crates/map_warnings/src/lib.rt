//! Warnings: what a level's references allow and no mapper wants.
#![tactic(auto)]

mod apart;
mod balance;
mod bare;
mod between;
mod checks;
mod closing;
mod facing;
mod game;
pub mod laws;
mod listed;
mod names;
mod records;
mod references;
mod resources;
mod sector_links;
mod special;
mod starts;
mod tags;
mod told;
mod twins;
mod unknown_flat;
mod unknown_texture;
mod unknown_thing;
mod void;
mod warning;

pub use checks::Checks;
pub use closing::SideRun;
pub use names::Names;
pub use references::has_references;
pub use resources::Resources;
pub use told::Told;
pub use twins::Ends;
pub use warning::{Plane, Side, SidePart, Warning, report_code};
