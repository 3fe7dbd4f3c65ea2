//! What the programs that measure have in common: a realistic layout, the calls of a day, the turns of several callers, and
//! the time between readings of the clock.
#![tactic(auto)]

mod clock;
mod day;
mod lanes;
mod turns;

pub use clock::{milliseconds, nanoseconds};
pub use day::{CALLS, held_after, message, moment};
pub use lanes::{SPANS, twelve_lanes};
pub use turns::{Caller, ROOM, SHAPES, SHEETS, Taken, Turns};
