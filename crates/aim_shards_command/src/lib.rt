//! Scripts of claims, and the command that runs them: callers side by side, and what they print.
#![tactic(auto)]

mod callers;
mod commands;
mod decisions;
pub mod laws;
mod lines;
mod reading;
mod running;
mod script;
mod texts;
mod values;

pub use commands::shards;
pub use decisions::{ClaimKind, ClaimLimit, refused_line};
pub use lines::{ShardLine, number, read_shard_line};
pub use reading::{ScriptRead, read_claims};
pub use running::run_script;
pub use script::{ClaimAsk, ClaimTerms, MOST_CALLS, MOST_SETS, Script};
