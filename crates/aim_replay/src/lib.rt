//! The stages of a script: its header, the line behind it, and its session, the charts of its steps, how far the script has
//! come, line by line, and the entries that its lines make.
#![tactic(auto)]

mod charts;
mod lines;
mod stages;

pub use charts::put_chart;
pub use lines::put_line;
pub use stages::{Finish, Stage, StageRefusal, Taken};
