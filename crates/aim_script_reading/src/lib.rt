//! Reading scripts of any kind: the first line that decides, a loop that reads up to it, and how a command over one ends.
#![tactic(auto)]

mod commands;
mod decisions;
pub mod laws;
mod reading;
mod takers;

pub use commands::put_text;
pub use decisions::{Bound, Refused, Why};
pub use reading::{Stop, read_script};
pub use takers::{LineTaker, Refusal};
