//! The commands that run drives: of a script, whose journal, logs and tiles are printed, and of generated traffic,
//! which is made here, and counted. Laws: its lines are a script, and with one worker a script has one run.
#![tactic(auto)]

mod commands;
mod generating;
pub mod laws;
mod layout;
mod making;
mod plans;
mod printing;
mod reports;
mod summaries;

pub use commands::drive;
pub use generating::generate;
pub use making::traffic;
pub use printing::print_traffic;
pub use reports::{put_all_tiles, put_logs};
