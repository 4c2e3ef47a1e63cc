//! The calls for programs in C and in languages that call C: numbers and slices in, numbers and the caller's slices out.
//! Each tests what it needs, so a caller owes only what the header, `include/wadlook.h`, says of pointers. A status of 0
//! says that all was done; the others are those of `status`.
#![tactic(auto)]

mod at_most;
mod audit;
mod audit_at;
mod block;
mod cells;
mod census;
mod census_at;
mod demo;
mod entry;
mod extract;
mod extract_at;
mod find;
mod find_at;
mod levels;
mod opening;
mod point;
mod points;
mod points_at;
mod prepare;
mod prepare_at;
mod question;
mod run;
mod sight;
mod status;
mod under;
