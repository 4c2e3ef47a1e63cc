//! The reports of `wadlens` on many files, over any files, readers and writers: `check`, `survey`, `demos`, a level cut out of a
//! file, and what codes mean.
#![tactic(auto)]

mod bases;
mod cut;
mod demos;
mod end;
mod explain;
mod files;
mod job;
mod output;
mod paths;
mod run;
mod tell;

pub use bases::{BaseFault, BasePaths, read_bases, refuse_base, wads_of};
pub use cut::{CutAsked, run_cut, write_cut_line, write_no_name};
pub use end::{End, exit_status, status};
pub use explain::run_explain;
pub use files::{FileBytes, Held, ReadFault, RunFiles, Stored, read_input, read_path};
pub use job::ReportJob;
pub use lens_texts::{AtOnce, HandOn, Unwatched, Watch};
pub use output::Output;
pub use paths::{all_paths, word_paths};
pub use run::{output_end, read_list, run_job, write_last, write_rest, write_unlooked};
pub use tell::{
    BytesFault, ReportKind, ReportSum, Request, SHOWN, Stop, no_tally, tell_bytes, tell_paths,
    tell_refusal, write_refusal,
};
