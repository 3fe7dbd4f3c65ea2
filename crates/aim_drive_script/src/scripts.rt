//! A drive script as a value.

use aim_driver::{DrivePlan, Fate, Ordered};
use aim_layout::Layout;
use aim_script::{Kind, Limit};

/// A vehicle's plan, and the fates of its links.
#[derive(Drop)]
pub struct Planned {
    pub vehicle: u32,
    pub plan: DrivePlan,
    /// The fates of its first messages.
    pub up: Vec<Fate>,
    /// The fates of the first replies to it.
    pub down: Vec<Fate>,
}

/// A whole drive script.
#[derive(Drop)]
pub struct DriveScript {
    pub layout: Layout,
    /// How many vehicles there are.
    pub vehicles: u32,
    /// The steps are those below this one.
    pub until: u32,
    /// In the order of the lines that plan them, at most one for each vehicle.
    pub plans: Vec<Planned>,
    /// In the order of the script.
    pub orders: Vec<Ordered>,
}

/// Why there is no whole script.
#[derive(Clone, Copy)]
pub enum Ending {
    /// The line of this number, counted from 1, is the first at fault.
    Bad(u32, Kind),
    /// The input goes past a limit.
    Limit(Limit),
    /// The source has failed.
    Read,
    /// Memory has run out.
    NoMemory,
}
