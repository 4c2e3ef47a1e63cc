//! What is told of a level's findings and warnings: each as a line for people and as an object of JSON, with its label, its
//! place and its file's path. A line is put together in a `TextLine` of `line_io`; a document is a list of `TextParts`, each
//! written by itself. An output that hands on what it holds back, and a watch over a run, stand here, too.
#![tactic(auto)]

mod broken;
mod digits;
pub mod escape;
mod explain;
mod form;
mod game_message;
mod hand_on;
mod json_string;
mod label;
pub mod laws;
mod level_object;
mod lines;
mod message;
mod opened;
mod order;
mod owners;
pub mod parts;
mod path;
mod place;
mod records;
mod remark;
mod remark_object;
mod report;
mod unbuilt;
mod unread;
mod warning_message;
mod watch;

pub use explain::write_explained;
pub use form::Form;
pub use hand_on::{AtOnce, HandOn};
pub use json_string::write_string;
pub use label::{LevelLabel, label_by, label_looked_up, prepend_label, prepend_name};
pub use level_object::{
    format_name, prepend_number, write_file, write_level, write_name, write_number, write_other,
};
pub use lines::{
    Heading, write_both, write_format, write_format_alone, write_heading, write_line, write_words,
};
pub use opened::{label_of, level_at};
pub use order::write_order;
pub use owners::owners_of;
pub use path::{control_text, is_control_at, write_after_path, write_path};
pub use place::{PlaceEnds, Spot};
pub use remark::Remark;
pub use remark_object::{write_front, write_wide_object};
pub use report::{WriteRemarks, write_left, write_remark};
pub use unbuilt::{EmptyLumps, write_unbuilt};
pub use unread::Unread;
pub use watch::{Unwatched, Watch};
