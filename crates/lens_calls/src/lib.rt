//! The words of `wadlens` that make no files, over files and an input in memory: each answer is the program's text, and each
//! message what the program writes to standard error. A page and a library hand on what they are asked.
#![tactic(auto)]

mod answer;
mod asked;
mod assemble;
mod compare;
mod cut;
mod draw;
mod draw_files;
mod explain;
mod file_demo;
mod large;
mod listing;
mod tell;

pub use answer::{answer_lens, answer_listing, do_lens, lens_status};
pub use asked::{LensFault, LensRequest, LensWord};
