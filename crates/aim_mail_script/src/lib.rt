//! Scripts of events: what their lines say behind the header, which line decides, and reading a whole one.
#![tactic(auto)]

mod checks;
pub mod laws;
mod reading;
mod scripts;
mod stages;

pub use reading::read_events;
pub use scripts::{Event, EventEnding, EventScript};
