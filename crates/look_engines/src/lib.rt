//! The engines behind the commands of `wadlook`: bytes in, bytes out. An engine is one file of code in `engines`, one of
//! definitions in `specs/Engines` and one of lemmas, under its command's name.
#![tactic(auto)]

mod command;
mod contents;
mod engines;
mod fault;
mod input;
pub mod laws;
mod listing;
mod names;
mod opening;
mod outcome;
mod turn;
mod words;

pub use command::{Cmd, Job};
pub use engines::audit::{audit_text, prepend_finding, prepend_totals};
pub use engines::blocks::blocks;
pub use engines::census::census_text;
pub use engines::demo::{demo_text, write_demo as write_listing};
pub use engines::extract::{extract, pack_level};
pub use engines::levels::levels;
pub use engines::lmp::lmp;
pub use engines::lumps::lumps;
pub use engines::points::points;
pub use engines::show::show;
pub use engines::sight::sight;
pub use engines::{MAX_INPUT, run};
pub use fault::RunFault;
pub use input::read_all;
pub use line_io::MAX_READ;
pub use listing::prepend_header;
pub use opening::sector_tree;
pub use outcome::status;
pub use turn::PlayerTurn;
pub use words::{after_wide, job};
