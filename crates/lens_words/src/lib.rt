//! What `wadlens` and its user tell each other besides the reports: what a command line asks for, what is wrong with it, and how
//! far a run is.
#![tactic(auto)]

mod atlas_words;
mod file_words;
mod given;
mod judging_words;
mod mistake;
mod picture_words;
mod progress;
mod shared_words;
mod unstarted;
mod words;

pub use atlas_words::AtlasWords;
pub use file_words::FileWords;
pub use given::{given_words, task_of};
pub use judging_words::JudgingWords;
pub use picture_words::PictureWords;
pub use progress::Progress;
pub use unstarted::Unstarted;
pub use words::{CompareWords, CutWords, ReportAsked, Task, Telling};
