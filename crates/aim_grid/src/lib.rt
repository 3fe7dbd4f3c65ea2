//! Several crossings, each with a manager of its own: vehicles that travel over them, what their legs are, whole runs in
//! memory, and what is promised of them.
#![tactic(auto)]

mod acks;
mod closing;
pub mod laws;
mod making;
mod running;
mod seats;
mod travellers;
mod travelling;

pub use acks::acked_at;
pub use aim_agents::{Gate, Manager, ManagerPass, Opened, Trouble};
pub use aim_drive::{Drove, Logged};
pub use aim_driver::NoMemory;
pub use running::run_routes;
pub use travellers::{Leg, Traveller};
pub use travelling::travel;
