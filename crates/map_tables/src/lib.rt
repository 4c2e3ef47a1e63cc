//! The two lumps of a level that aren't tables of records, and what can be found at them: REJECT,
//! which refuses sight between sectors, and BLOCKMAP, which lists linedefs by square blocks.
#![tactic(auto)]

mod block_lines;
mod block_map;
mod findings;
pub mod laws;
mod reject;
mod words;

pub use block_lines::BlockLines;
pub use block_map::{BlockFault, BlockMap, blocks_along};
pub use findings::{Tables, table_findings};
pub use reject::Reject;
