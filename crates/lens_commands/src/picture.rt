//! The level of a name among files that form one set, drawn as the text of an SVG.

mod draw;
mod format;
mod marks;
mod run;
mod told;

pub use draw::{PictureQuestion, drawn_verdict, verdict_of_format};
pub use format::undrawn_at;
pub use marks::marks_by;
pub use run::run_picture;
pub use told::{write_format, write_named};
