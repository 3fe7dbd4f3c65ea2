//! What a script of several crossings comes to.

use aim_script::{Kind, Limit};

/// Why a line is at fault.
#[derive(Clone, Copy)]
pub enum GridKind {
    /// As a line of any script may be.
    Plain(Kind),
    /// There are no crossings, or more than 8.
    Crossing,
    /// The crossing isn't there, the vehicle has a leg there already, or a number of the plan is out of its bounds.
    Route,
}

/// What a script comes to.
#[derive(Clone, Copy)]
pub enum GridDecision {
    /// The line of this number, counted from 1, is the first at fault.
    Bad(u32, GridKind),
    /// The input goes past a limit.
    Limit(Limit),
    /// The script is whole.
    Whole,
}
