//! A server that owns the book, with the clients of a script of events beside it, and what they print.
#![tactic(auto)]

mod callers;
mod commands;
pub mod laws;
mod running;
mod runs;

pub use commands::mail;
pub use running::run_script;
