//! The engines that go over all levels of a file: bytes in, bytes out. Which files there are only a program knows, and it
//! hands their paths on as bytes.
#![tactic(auto)]

mod base;
mod check;
mod counts;
mod cut;
mod failing;
mod ignored;
mod judged;
mod judging;
mod later;
pub mod laws;
mod level_counts;
mod level_lines;
mod object;
mod report_counts;
mod survey;
mod surveyed;
mod tables;
mod totals;
mod unjudged;
mod unlisted;
mod unlooked;
mod unlooked_text;
mod verdict;
mod warned;

pub use base::{Base, over_base};
pub use check::{Question, check_file};
pub use cut::{CutFault, Uncut, cut_level, write_cut_fault};
pub use judged::Judged;
pub use judging::{Judging, Rules, Warnings};
pub use later::unread_at;
pub use level_counts::LevelCounts;
pub use level_lines::write_found;
pub use object::{FileRefusal, refused_line};
pub use report_counts::ReportCounts;
pub use survey::survey_file;
pub use surveyed::{Surveyed, write_surveyed};
pub use tables::Tables;
pub use totals::{Totals, format_totals, judged_totals, write_totals};
pub use unjudged::Unjudged;
pub use unlisted::Unlisted;
pub use verdict::{LevelsFault, Verdict};
pub use warned::{Warned, asked_resources};
