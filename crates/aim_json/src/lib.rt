//! Script lines and entries as JSON: the value of each, the calls that write it, and the one that reads lines.
#![tactic(auto)]

mod entries;
pub mod laws;
mod lines;
mod object;
mod reading;
mod spelling;
mod words;
mod writing;

pub use reading::{JsonFault, read_json_line};
pub use writing::{write_json_entry, write_json_line};
