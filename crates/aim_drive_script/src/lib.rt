//! Drive scripts: what their lines say behind the header, which line decides, and reading a whole one.
#![tactic(auto)]

mod building;
mod checks;
mod drafts;
mod places;
mod questions;
mod reading;
mod scripts;

pub use reading::read_drive;
pub use scripts::{DriveScript, Ending, Planned};
