//! The commands `picture`, `atlas`, `compare`, `listing` and `assemble` of `wadlens`, over any files, readers, writers and folders.
#![tactic(auto)]

mod assemble;
mod atlas;
mod compare;
mod given;
mod listing;
mod picture;

pub use assemble::{run_assemble, write_wrong_line};
pub use atlas::{
    AtlasFault, AtlasJob, AtlasRequest, Folder, FolderFault, FolderRefusal, KeepFault, run_atlas,
    write_atlas,
};
pub use compare::run_compare;
pub use listing::run_listing;
pub use picture::{
    PictureQuestion, drawn_verdict, marks_by, run_picture, undrawn_at, verdict_of_format,
    write_format, write_named,
};
