//! Where drivers are, step by step: no two of them are on one tile in one step.
#![tactic(auto)]

mod cells;
mod grants;
pub mod laws;
mod passages;
mod traces;

pub use cells::Cell;
pub use passages::occupied;
pub use std::alloc::AllocError as NoMemory;
