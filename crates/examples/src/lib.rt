//! Callers of the libraries, one in each module: what a program above them can promise by their
//! contracts and laws alone.
#![tactic(auto)]

mod block_grid;
mod built_lumps;
mod census_cost;
mod demo_firing;
mod demo_length;
mod fault_search;
mod lump_exchange;
mod point_sector;
mod room_census;
mod ssector_sectors;
mod thing_sectors;

pub use block_grid::blocks_in;
pub use built_lumps::{nodes_are_clean, tables_are_clean};
pub use census_cost::{CensusWork, census_work};
pub use demo_firing::commands_firing;
pub use demo_length::full_tics;
pub use fault_search::first_fault;
pub use lump_exchange::{ExchangeFault, with_lump};
pub use point_sector::locate;
pub use room_census::points_in_sector;
pub use ssector_sectors::sectors_of_ssectors;
pub use thing_sectors::sectors_of_things;
