//! Demos of the engines behind Doom 1.9: Boom, MBF, PrBoom and MBF21, those of Doom 1.4 to 1.9, and the wrappers
//! of DSDA-Doom and PrBoom+um around any of these. They are read in memory, by one table of versions.
#![tactic(auto)]

mod command;
mod demo;
mod fault;
mod field;
mod footer;
mod front;
mod header;
pub mod laws;
mod layout;
mod numbers;
mod part;
mod wrapper;

pub use command::{Actions, CommandForm, Commands, LaterCommand};
pub use demo::LaterDemo;
pub use fault::LaterFault;
pub use field::{FIELDS, Field};
pub use footer::Footer;
pub use layout::{Engine, Layout, layout_of};
pub use part::Part;
pub use wrapper::{DsdaWrapper, Wrapper};
