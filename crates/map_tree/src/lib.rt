//! The nodes of a level as a tree: what is wrong with them, and the ssector of each point.
#![tactic(auto)]

mod areas;
mod census;
mod column;
mod counts;
mod cut;
pub mod laws;
mod marks;
mod parts;
mod pieces;
mod places;
mod row;
mod sector_counts;
mod sector_tree;
mod soundness;
mod tally;
mod tree;
mod tree_bounds;
mod tree_codes;
mod tree_faults;
mod words;

pub use counts::{Areas, Counts};
pub use pieces::word_at;
pub use places::NF_SUBSECTOR;
pub use sector_tree::SectorTree;
pub use soundness::is_sound;
pub use tally::Tally;
pub use tree::{Tree, root_word};
pub use tree_codes::{Nodes, tree_findings};
