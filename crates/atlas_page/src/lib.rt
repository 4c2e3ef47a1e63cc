//! The levels of many files as a page: a row for each level, with its picture, its counts and what was
//! found.
#![tactic(auto)]

mod items;
mod legend;
mod levels;
mod map_view;
mod messages;
mod page;
mod picture_name;
mod refused;
mod row;
mod rows;
mod style;
mod text;

pub use levels::{Origin, push_rows};
pub use messages::Messages;
pub use page::{Page, PageHead, write_page};
pub use picture_name::prepend_picture_name;
pub use refused::RefusedFile;
pub use row::Row;
