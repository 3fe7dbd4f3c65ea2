//! Requests with their cells: the tiles that a crossing needs in each step, written into sheets before the manager is
//! asked.
//!
//! The cells of a step are those of two windows on the path's stations: a wide one at the border, of the crossing steps
//! within the edge buffer, and a narrow one inside, of those within the early and late buffers. Both only move on.
#![tactic(auto)]

mod arrivals;
mod bounds;
mod memos;
mod requests;
mod rows;
mod shapes;
mod trials;

pub use bounds::{NeedsCells, bad_field, may_reach};
pub use memos::Memo;
pub use requests::{Prepared, TrialSteps, params_in, prepare, prepare_from};
pub use shapes::Shapes;
