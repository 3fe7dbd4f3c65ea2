//! Scripts of several crossings: their lines, what these say, which line decides, how far a script has come, line by line,
//! and reading a whole one.
#![tactic(auto)]

mod checks;
mod decisions;
mod endings;
pub mod laws;
mod lines;
mod reading;
mod routes;
mod stages;

pub use decisions::{GridDecision, GridKind};
pub use endings::GridEnding;
pub use lines::{GridLine, read_grid_line};
pub use reading::read_grid;
pub use routes::{PlannedLeg, Routes};
pub use stages::{GridRefusal, GridStage};
