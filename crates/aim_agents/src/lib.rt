//! A vehicle's agent, which is a driver with its links and a pass of the manager that threads share; and rounds: the turns
//! of many agents, step by step, in runs that go side by side, with the operator's orders between them.
#![tactic(auto)]

mod agents;
mod driving;
pub mod laws;
mod runs;
mod steps;

pub use agents::{Agent, Gate, Trouble};
pub use aim_manager::{Full, Manager, ManagerFront, ManagerPass, Memo, OpenFault, Opened};
pub use driving::drive;
pub use steps::rounds;
