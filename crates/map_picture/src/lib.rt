//! A picture of a level as the text of an SVG: which sector is shown where, the linedefs, the findings and the things.
#![tactic(auto)]

mod class;
mod counted_level;
mod draw;
mod finding_counts;
mod grey;
mod head;
mod lines;
mod listing;
mod marks;
mod paths;
mod picture;
mod sectors;
mod things;
mod warned;
mod warning_marks;
mod window;
mod word;

pub use counted_level::CountedLevel;
pub use draw::{DrawFault, View, draw_level};
pub use finding_counts::FindingCounts;
pub use picture::{Drawn, write_picture};
pub use sectors::SectorCells;
pub use warned::MarkedWarnings;
