//! Drivers: what one does at each step, the log that it keeps, and the links over which it speaks with a manager.
#![tactic(auto)]

mod bodies;
mod drivers;
mod idle;
mod known;
pub mod laws;
mod links;
mod logs;
mod orders;
mod plans;
mod replies;
mod turns;

pub use bodies::{active_after_sending, changed_by, is_a_cancel, is_a_change, is_a_done};
pub use drivers::Driver;
pub use links::{Fate, Link, Sending};
pub use logs::{Entrance, LogItem, Window};
pub use orders::Ordered;
pub use plans::{Changes, DrivePlan, PlannedChange};
pub use replies::{active_after_answer, held_in, is_stop, lead_after_answer, next_after_answer};
pub use std::alloc::AllocError as NoMemory;
pub use turns::begin_turn;
