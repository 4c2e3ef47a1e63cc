//! The levels of many files as a folder of pictures, a survey and a page.

mod fault;
mod folder;
mod gather;
mod job;
mod lines;
mod pictures;
mod run;
mod tell;

pub use fault::{AtlasFault, KeepFault};
pub use folder::{Folder, FolderFault, FolderRefusal};
pub use job::{AtlasJob, AtlasRequest};
pub use run::{run_atlas, write_atlas};
