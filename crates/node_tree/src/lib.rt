//! The tree of a level's nodes, whatever the words of the nodes are: what is wrong with it, and the ssector of each point.
#![tactic(auto)]

mod bounds;
mod codes;
mod descent;
mod faults;
mod forked;
mod later_tree;
pub mod laws;
mod marks;
mod places;
mod soundness;
mod words;

pub use codes::{Nodes, tree_findings};
pub use descent::leaf;
pub use forked::{Children, Forked, Line};
pub use later_tree::LaterTree;
pub use soundness::is_sound;
