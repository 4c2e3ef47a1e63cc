//! Points, partitions and rectangles of a map: on which side of a partition a point lies, and on
//! which one a whole rectangle does.
#![tactic(auto)]

pub mod laws;
mod partition;
mod point;
mod rect;
mod sides;

pub use partition::{Partition, side};
pub use point::Point;
pub use rect::{Rect, whole_side};
pub use sides::Side;
