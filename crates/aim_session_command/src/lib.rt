//! The command that holds a session over the lines of a source: each line is answered, and one that isn't taken changes
//! nothing.
#![tactic(auto)]

mod ahead;
mod lines;
mod sessions;

pub use sessions::session;
