//! The codes of findings and warnings: one table of them all, in the order of a report.
#![tactic(auto)]

mod code;
mod explanation;
mod kind;
pub mod laws;
mod set;
mod table;

pub use code::{ReportCode, WarningCode};
pub use explanation::Explanation;
pub use kind::{Class, Kind, Offer, Wants};
pub use set::{CodeSet, Group};
pub use table::REPORT_COUNT;
