//! A whole drive in memory: agents made of plans, rounds and orders, and the journal and logs that are left.
#![tactic(auto)]

mod making;
mod running;

pub use aim_agents::Gate;
pub use aim_driver::NoMemory;
pub use running::{Drove, Logged, open, run_script};
