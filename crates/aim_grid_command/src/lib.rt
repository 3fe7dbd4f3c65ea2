//! The command that runs scripts of several crossings: from bytes to bytes.
#![tactic(auto)]

mod commands;
pub mod laws;
mod refusals;
mod reports;

pub use commands::grid;
