//! The routes of a script as values.

use aim_driver::DrivePlan;
use aim_layout::Layout;
use aim_script::ScriptVersion;

/// A vehicle's plan at a crossing.
#[derive(Drop)]
pub struct PlannedLeg {
    pub vehicle: u32,
    pub crossing: u32,
    pub plan: DrivePlan,
}

/// The crossings of a script, and the routes of its vehicles.
#[derive(Drop)]
pub struct Routes {
    /// The version of the lines.
    pub version: ScriptVersion,
    /// The layouts of the crossings, in the order of their numbers.
    pub layouts: Vec<Layout>,
    /// How many vehicles there are.
    pub vehicles: u32,
    /// The steps are those below this one.
    pub until: u32,
    /// In the order of the script: a vehicle's legs are those that it names, one after the other.
    pub legs: Vec<PlannedLeg>,
}
