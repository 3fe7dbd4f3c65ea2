//! What the header of a script says.

use crate::names::Names;
use crate::versions::ScriptVersion;
use aim_layout::Layout;

/// What the lines of a script say up to that of the vehicles.
#[derive(Drop)]
pub struct Setting {
    /// The version of the lines behind it.
    pub version: ScriptVersion,
    /// The layout that the lines describe.
    pub layout: Layout,
    /// The names of its policies.
    pub names: Names,
    /// How many vehicles there are, at least one.
    pub vehicles: u32,
}
