//! A script of events as a value.

use aim_layout::Layout;
use aim_messages::Message;
use aim_script::{Kind, Limit};

/// A message of a vehicle, and the moment at which it comes.
#[derive(Clone, Copy)]
pub struct Event {
    pub vehicle: u32,
    pub moment: u32,
    pub message: Message,
}

/// A whole script of events.
#[derive(Drop)]
pub struct EventScript {
    pub layout: Layout,
    /// How many vehicles there are.
    pub vehicles: u32,
    /// In the order of the script.
    pub events: Vec<Event>,
}

/// Why there is no whole script of events.
#[derive(Clone, Copy)]
pub enum EventEnding {
    /// The line of this number, counted from 1, is the first at fault.
    Bad(u32, Kind),
    /// The input goes past a limit.
    Limit(Limit),
    /// The source has failed.
    Read,
    /// Memory has run out.
    NoMemory,
}
